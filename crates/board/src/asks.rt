// Questions: of a key range, and of one cabinet. They change nothing.
ghost use Rattle.std.specs.Prelude.{◌≡◌, length, is_ok};
ghost use Rattle.sketch.specs.Layout.{shape_of, cell_number};
ghost use Rattle.sketch.specs.Answers.{RangeAnswer};
ghost use Rattle.daybook.specs.Book as Book;
ghost use Rattle.daybook.specs.Book.{key_in};
ghost use Rattle.board.specs.Serials.{serials_of};
ghost use Rattle.daybook.specs.Runs.{Lawful};
ghost use Rattle.board.specs.Held.{state_of};
ghost use Rattle.board.specs.Causes.{range_causes, ask_causes};
ghost use Rattle.board.specs.Outcomes.{Outcome, RangeOutcome, AskOutcome};

use crate::faults::Fault;
use crate::held::Board;
use crate::records::Record;
use sketch::question::Question;
use window::Counter;

impl Board {
    // The question at t over v.
    pub(crate) fn question<'a, C: Counter>(
        &'a self,
        cells: &'a [C],
        t: u32,
        v: u32,
    ) -> Question<'a, C>
        requires sized { length cells.now ≡ cell_number (shape_of self.now.sketch) }
        ensures sketch { result.sketch.now ≡ self.now.sketch }
        ensures cells { result.cells.now ≡ cells.now }
        ensures enrolled { result.enrolled ≡ self.now.enrolled }
        ensures t { result.t ≡ t }
        ensures v { result.v ≡ v }
    {
        Question {
            sketch: &self.sketch,
            cells,
            enrolled: self.enrolled,
            t,
            v,
        }
    }

    // The low and high of the keys from first to last at t over v: plain arguments, as a call is made with them.
    pub fn range<'a, C: Counter>(
        &'a self,
        cells: &'a [C],
        register: &[Record],
        first: u32,
        last: u32,
        t: u32,
        v: u32,
    ) -> Result<(u64, u64), Fault>
        ensures answered { Outcome (range_causes self.now (length cells.now) (length register.now) first last t v) (Unit {0}) (RangeAnswer C.Counter.model (shape_of self.now.sketch) cells.now self.now.enrolled t v first last) result }
        ensures estimated { RangeOutcome C.Counter.model self.now cells.now register.now first last t v result }
        ensures lawful { Lawful C.Counter.model (state_of self.now cells.now register.now) (Book.range first last t v) (is_ok result) (state_of self.now cells.now register.now) }
    {
        self.may_range(cells.len(), register, first, last, t, v)?;
        Ok(self.question(cells, t, v).range(first, last)?)
    }

    // The low and high of one enrolled cabinet at t over v: those of its key.
    pub fn ask<'a, C: Counter>(
        &'a self,
        cells: &'a [C],
        register: &[Record],
        serial: &[u8],
        t: u32,
        v: u32,
    ) -> Result<(u64, u64), Fault>
        ensures answered { Outcome (ask_causes self.now (length cells.now) register.now serial.now t v) (Unit {0}) (RangeAnswer C.Counter.model (shape_of self.now.sketch) cells.now self.now.enrolled t v (key_in (serials_of self.now.enrolled register.now) serial.now) (key_in (serials_of self.now.enrolled register.now) serial.now)) result }
        ensures estimated { AskOutcome C.Counter.model self.now cells.now register.now serial.now t v result }
        ensures lawful { Lawful C.Counter.model (state_of self.now cells.now register.now) (Book.ask serial.now t v) (is_ok result) (state_of self.now cells.now register.now) }
    {
        let key = self.may_ask(cells.len(), register, serial, t, v)?;
        Ok(self.question(cells, t, v).range(key, key)?)
    }
}
