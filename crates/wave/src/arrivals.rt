// The arrivals that waves take. Nothing is refused here.
ghost use Rattle.std.specs.Prelude.{◌≡◌, ◌<◌, true, false};
ghost use Rattle.window.specs.Faults.{most_taken};
ghost use Rattle.wave.specs.Waves.{sound, arrived};

use crate::Wave;
use crate::ranks::place_of;

impl Wave {
    // Stamp t is the newest. The stamps of the ranks stay.
    pub(crate) fn advance(&mut self, t: u32)
        requires unspent { self.old.taken < most_taken }
        requires unsound { sound self.old ≡ false }
        ensures arrived { self.new ≡ arrived self.old t }
    {
        self.taken += 1;
        self.last = t;
    }

    // Stamp t is the newest, and the next rank has it.
    pub(crate) fn arrive(&mut self, t: u32)
        requires unspent { self.old.taken < most_taken }
        requires sound { sound self.old ≡ true }
        ensures arrived { self.new ≡ arrived self.old t }
    {
        let rank = self.taken + 1;
        self.stamps[place_of(rank)] = t;
        self.taken = rank;
        self.last = t;
    }
}
