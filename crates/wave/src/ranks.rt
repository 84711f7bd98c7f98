// Ranks, the levels that keep them, and the places of their stamps.
ghost use Rattle.std.specs.Prelude.{◌≡◌, ◌+◌, ◌-◌, ◌*◌, ◌/◌, ◌^◌, ◌<◌, ◌≤◌, nat_lt};
ghost use Rattle.wave.specs.Ranks.{top};
ghost use Rattle.wave.specs.Waves.{place};
ghost use Rattle.wave.specs.Walks.{StandsAt, Older};

// One past the highest level.
const LEVELS: u32 = 12;

// The highest level that a rank belongs to.
pub fn level_of(rank: u32) -> u32
    ensures highest { result ≡ top rank }
{
    rank.trailing_zeros().min(11)
}

// Where the stamp of a rank stands.
pub fn place_of(rank: u32) -> usize
    ensures placed { result ≡ place rank }
    ensures within { result < 104 }
{
    let level = level_of(rank);
    if level < 11 {
        (8 * level + (rank >> (level + 1)) % 8) as usize
    } else {
        (88 + (rank >> 11) % 16) as usize
    }
}

// The newest rank of a level that is not after the given one.
fn rounded(rank: u32, level: u32) -> u32
    requires within { level < 12 }
    ensures rounded { result ≡ rank / 2 ^ level * 2 ^ level }
{
    rank >> level << level
}

// Whether a rank of a level is one of its newest 2m + 1.
fn is_near(taken: u32, fineness: u8, level: u32, rank: u32) -> bool
    requires within { level < 12 }
    requires fine { fineness ≤ 6 }
    requires reached { rank ≤ taken }
    ensures near { result ≡ nat_lt (taken - rank) ((2 * fineness + 1) * 2 ^ level) }
{
    taken - rank < (2 * u32::from(fineness) + 1) << level
}

// The largest kept rank below one that `level` keeps, and a level that keeps it to go on from.
pub(crate) fn older(taken: u32, fineness: u8, rank: u32, level: u32) -> Option<(u32, u32)>
    requires fine { fineness ≤ 6 }
    requires stands { StandsAt taken fineness level rank }
    ensures older { Older taken fineness rank result }
{
    let mut next = rank.checked_sub(1 << level)?;
    // A loop: as `find_map` over the levels, what the closure asks at each of them did not prove.
    for higher in level..LEVELS {
        next = rounded(next, higher);
        if is_near(taken, fineness, higher, next) {
            return Some((next, higher));
        }
    }
    None
}
