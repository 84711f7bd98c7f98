// Plays.
ghost use Rattle.std.specs.Prelude.{◌≡◌, ◌+◌, ◌<◌, is_ok};
ghost use Rattle.daybook.specs.Book.{play};
ghost use Rattle.daybook.specs.Runs.{Lawful};
ghost use Rattle.board.specs.Held.{state_of};
ghost use Rattle.board.specs.Outcomes.{PlayOutcome};

use crate::faults::Fault;
use crate::held::Board;
use crate::records::Record;
use window::Counter;

impl Board {
    // Moves the clock to stamp t, and gives how many plays were accepted with this one.
    fn note_play(&mut self, t: u32) -> u32
        requires few { self.old.accepted < 16777215 }
        ensures number { result ≡ self.old.accepted + 1 }
        ensures accepted { self.new.accepted ≡ self.old.accepted + 1 }
        ensures clock { self.new.clock ≡ t }
        ensures opened { self.new.opened ≡ self.old.opened }
        ensures sketch { self.new.sketch ≡ self.old.sketch }
        ensures enrolled { self.new.enrolled ≡ self.old.enrolled }
    {
        self.clock = t;
        self.accepted += 1;
        self.accepted
    }

    // Gives stamp t to the cell of the cabinet's node in every level and row, and answers how many plays were accepted.
    pub fn play<C: Counter>(
        &mut self,
        cells: &mut [C],
        register: &[Record],
        serial: &[u8],
        t: u32,
    ) -> Result<u32, Fault>
        ensures played { PlayOutcome C.Counter.model self.old self.new cells.old cells.new register.now serial.now t result }
        ensures lawful { Lawful C.Counter.model (state_of self.old cells.old register.now) (play serial.now t) (is_ok result) (state_of self.new cells.new register.now) }
    {
        let key = self.may_play(cells.len(), register, serial, t)?;
        self.sketch.tell(cells, key, t)?;
        Ok(self.note_play(t))
    }
}
