// One walk over the kept ranks, newest first, that tests the wave and counts.
ghost use Rattle.std.specs.Prelude.{◌≡◌, ◌≤◌, ◌&&◌, is_some, if◌then◌else◌, Some, None, Decides, nat_lt};
ghost use Rattle.window.specs.Stamps.{is_live};
ghost use Rattle.wave.specs.Waves.{stamp_of, sound, low_of, high_of};
ghost use Rattle.wave.specs.Soundness.{Sound};
ghost use Rattle.wave.specs.Walks.{fits, looked, estimated};

use crate::Wave;
use crate::ranks::{older, place_of};
use window::settings::in_range;
use window::stamps::is_live;

// The most that may be live at the last stamp over the window.
pub const LIMIT: u32 = 4095;

// What is known of the ranks met so far.
#[derive(Clone, Copy)]
struct Seen {
    // the oldest stamp, or the last stamp before any
    oldest: u32,
    // the ranks from the smallest live one on
    low: Option<u32>,
    // the ranks after the largest dead one
    high: Option<u32>,
}

impl Seen {
    // The low and high that it gives.
    fn estimate(self) -> (u32, u32)
        ensures estimated { result ≡ estimated self }
    {
        self.low
            .map_or((0, 0), |low| (low, self.high.unwrap_or(low).min(8190)))
    }
}

// Whether a rank with this stamp is live at t over v; the mark never is.
fn is_rank_live(rank: u32, stamp: u32, t: u32, v: u32) -> bool
    ensures live { result ≡ (nat_lt 0 rank && is_live t v stamp) }
{
    0 < rank && is_live(stamp, t, v)
}

impl Wave {
    // The stamp of a rank.
    fn stamp_of(&self, rank: u32) -> u32
        ensures held { result ≡ stamp_of self.now rank }
    {
        self.stamps[place_of(rank)]
    }

    // Whether a rank with this stamp may stand below ranks whose oldest stamp is `newer`.
    fn fits(&self, rank: u32, stamp: u32, newer: u32) -> bool
        requires reached { rank ≤ self.now.taken }
        ensures fitting { result ≡ fits self.now rank stamp newer }
    {
        rank == 0
            || stamp <= newer
                && (self.taken - rank < LIMIT || !is_live(stamp, self.last, self.window))
    }

    // What is seen after a rank; nothing where it shows that the wave is not sound.
    fn look(&self, t: u32, v: u32, rank: u32, seen: Seen) -> Option<Seen>
        requires reached { rank ≤ self.now.taken }
        ensures looked { result ≡ (if fits self.now rank (stamp_of self.now rank) seen.oldest then Some (looked self.now t v rank seen) else None) }
    {
        let oldest = self.stamp_of(rank);
        if !self.fits(rank, oldest, seen.oldest) {
            return None;
        }
        let newer = self.taken - rank;
        if is_rank_live(rank, oldest, t, v) {
            Some(Seen {
                oldest,
                low: Some(newer + 1),
                ..seen
            })
        } else {
            Some(Seen {
                oldest,
                high: Some(seen.high.unwrap_or(newer)),
                ..seen
            })
        }
    }

    // Low and high at t over v; nothing where the wave is not sound.
    pub fn survey(&self, t: u32, v: u32) -> Option<(u32, u32)>
        ensures surveyed { result ≡ (if sound self.now then Some (low_of self.now t v, high_of self.now t v) else None) }
        ensures tested { Decides (is_some result) (Sound self.now) }
    {
        if !in_range(self.window, self.fineness) {
            return None;
        }
        let mut seen = Seen {
            oldest: self.last,
            low: None,
            high: None,
        };
        // `iter::successors` would be no plainer: nothing says of it that the ranks fall, so that it ends.
        let mut next = Some((self.taken, 0));
        while let Some((rank, level)) = next {
            seen = self.look(t, v, rank, seen)?;
            next = older(self.taken, self.fineness, rank, level);
        }
        Some(seen.estimate())
    }

    // Whether the wave is sound.
    pub fn is_sound(&self) -> bool
        ensures equals { result ≡ sound self.now }
        ensures decides { Decides result (Sound self.now) }
    {
        self.survey(self.last, self.window).is_some()
    }
}
