// The exact ring: a window counter that keeps the newest 256 stamps, so low and high are the same.
#![tactic(auto)]

ghost use Rattle.std.specs.Prelude.{◌≡◌, ◌%◌, ◌<◌, true, is_ok, nat_le};
ghost use Rattle.window.specs.Meaning.{Fresh};
ghost use Rattle.window.specs.Faults.{Took, most_taken};
ghost use Rattle.ring.specs.Kept.{empty_ring, kept, live_kept, with_newest, ring_model};
ghost use Rattle.ring.specs.Standing.{ring_keeps};

use window::admission::{in_turn, permit};
use window::settings::{fineness_from, window_from};
use window::stamps::{is_live, live_among};
use window::{Counter, CounterFault};

// How many stamps are kept, and the limit.
const KEPT: u32 = 256;

// The record lies in lent memory and may hold anything: the stamps keep their fixed places, and
// the number taken beside them says which of them are in use.
#[derive(Clone, Copy, PartialEq, Eq, Debug)]
pub struct Ring {
    pub window: u32,
    pub fineness: u8,
    pub last: u32,
    pub taken: u32,
    // the stamp of rank r, counted from 0, at place r % 256
    pub stamps: [u32; 256],
}

// The place of a rank.
fn place_of(rank: u32) -> usize
    ensures place { result ≡ rank % 256 }
{
    (rank % KEPT) as usize
}

impl Ring {
    // The kept stamps, by place.
    fn kept(&self) -> &[u32]
        ensures kept { result.now ≡ kept self.now }
    {
        let many = self.taken.min(KEPT) as usize;
        &self.stamps[..many]
    }

    // How many of the kept stamps are live at t over v.
    fn live(&self, t: u32, v: u32) -> u32
        ensures live { result ≡ live_kept self.now t v }
    {
        live_among(self.kept(), t, v)
    }

    // Whether 256 stamps are live at t over the window. The one that t would replace
    // is looked at first: where it is dead, no other need be.
    fn is_full(&self, t: u32) -> bool
        ensures full { result ≡ nat_le 256 (live_kept self.now t self.now.window) }
    {
        self.taken >= KEPT
            && is_live(self.stamps[place_of(self.taken)], t, self.window)
            && self.live(t, self.window) >= KEPT
    }

    // Stores t as the newest stamp.
    fn arrive(&mut self, t: u32)
        requires room { self.old.taken < most_taken }
        ensures stored { self.new ≡ with_newest self.old t }
    {
        self.stamps[place_of(self.taken)] = t;
        self.taken += 1;
        self.last = t;
    }
}

impl Counter for Ring {
    ghost model = { ring_model };

    ghost keeps = { ring_keeps };

    fn make(window: u32, fineness: u8) -> Ring
        ensures fresh { Fresh ring_model window fineness result }
        ensures made { result ≡ empty_ring window fineness }
    {
        Ring {
            window: window_from(window),
            fineness: fineness_from(fineness),
            last: 0,
            taken: 0,
            stamps: [0; 256],
        }
    }

    // What a ring tells stands in its own impl, as in the other counters': a shared struct of the four fields would only add a layer.
    fn window(&self) -> u32 {
        self.window
    }

    fn fineness(&self) -> u8 {
        self.fineness
    }

    fn limit(&self) -> u32 {
        KEPT
    }

    fn last(&self) -> u32 {
        self.last
    }

    fn taken(&self) -> u32 {
        self.taken
    }

    fn count(&self, t: u32, v: u32) -> Result<(u32, u32), CounterFault> {
        permit(self.last, self.window, t, v)?;
        let live = self.live(t, v);
        Ok((live, live))
    }

    fn take(&mut self, t: u32) -> Result<(), CounterFault>
        ensures took { Took ring_model self.old self.new t result }
        ensures stored { is_ok result ≡ true → self.new ≡ with_newest self.old t }
    {
        in_turn(self.last, self.taken, t)?;
        if self.is_full(t) {
            return Err(CounterFault::Full);
        }
        self.arrive(t);
        Ok(())
    }
}
