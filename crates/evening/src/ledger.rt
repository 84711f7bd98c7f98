// The plays that a board accepted, kept one by one: what its answers are held against.
ghost use Rattle.std.specs.Prelude.{◌≡◌};
ghost use Rattle.evening.specs.Truth.{live_in, true_count};

use window::stamps::is_live;

// One accepted play.
#[derive(Clone, Copy)]
pub struct Entry {
    pub key: u32,
    pub stamp: u32,
}

impl Entry {
    // Whether it is live at t over v, and of a key from first to last.
    fn is_live_in(&self, first: u32, last: u32, t: u32, v: u32) -> bool
        ensures live { result ≡ live_in first last t v self.now }
    {
        is_live(self.stamp, t, v) && (first..=last).contains(&self.key)
    }
}

// How many plays of the keys from first to last are live at t over v.
pub fn true_count(entries: &[Entry], first: u32, last: u32, t: u32, v: u32) -> usize
    ensures counted { result ≡ true_count entries.now first last t v }
{
    entries
        .iter()
        .filter(|entry| entry.is_live_in(first, last, t, v))
        .count()
}
