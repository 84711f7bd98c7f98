// Enrolment.
ghost use Rattle.std.specs.Prelude.{◌≡◌, ◌+◌, ◌<◌, ◌≤◌, length, is_ok, slice_set};
ghost use Rattle.sketch.specs.Layout.{shape_of, keys};
ghost use Rattle.daybook.specs.Book.{enrol};
ghost use Rattle.daybook.specs.Runs.{Lawful};
ghost use Rattle.board.specs.Serials.{serials, IsRecordOf};
ghost use Rattle.board.specs.Held.{state_of};
ghost use Rattle.board.specs.Causes.{Unless, fresh_causes, enrol_causes};
ghost use Rattle.board.specs.Outcomes.{EnrolOutcome};

use crate::faults::{Fault, Refusal};
use crate::held::Board;
use crate::records::{Enrolled, Record, record_of};
use window::Counter;

impl Board {
    // The record of a serial that is not enrolled yet, where a key is left.
    fn fresh(&self, enrolled: &Enrolled, serial: &[u8]) -> Result<Record, Refusal>
        ensures fresh { Unless (fresh_causes self.now (serials enrolled.now.records.now) serial.now) (IsRecordOf serial.now) result }
    {
        let sought = record_of(serial).ok_or(Refusal::NotASerial)?;
        if let Some(key) = enrolled.key_of(&sought) {
            return Err(Refusal::AlreadyEnrolled { key });
        }
        if self.enrolled >= self.keys() {
            return Err(Refusal::NoKeyLeft);
        }
        Ok(sought)
    }

    // Whether a serial is enrolled: its record.
    fn may_enrol(&self, cells: usize, register: &[Record], serial: &[u8]) -> Result<Record, Refusal>
        ensures fresh { Unless (enrol_causes self.now cells register.now serial.now) (IsRecordOf serial.now) result }
    {
        let enrolled = self.ready(cells, register)?;
        self.fresh(&enrolled, serial)
    }

    // Puts a record after the enrolled ones, and gives its key.
    fn put_next(&mut self, register: &mut [Record], new: Record) -> u32
        requires left { self.old.enrolled < keys (shape_of self.old.sketch) }
        requires sized { keys (shape_of self.old.sketch) ≤ length register.old }
        ensures key { result ≡ self.old.enrolled }
        ensures put { register.new ≡ slice_set register.old self.old.enrolled new }
        ensures more { self.new.enrolled ≡ self.old.enrolled + 1 }
        ensures opened { self.new.opened ≡ self.old.opened }
        ensures sketch { self.new.sketch ≡ self.old.sketch }
        ensures clock { self.new.clock ≡ self.old.clock }
        ensures accepted { self.new.accepted ≡ self.old.accepted }
    {
        let key = self.enrolled;
        register[key as usize] = new;
        self.enrolled = key + 1;
        key
    }

    // Adds a serial and gives its key, the number enrolled before it.
    pub fn enrol<C: Counter>(
        &mut self,
        cells: &[C],
        register: &mut [Record],
        serial: &[u8],
    ) -> Result<u32, Fault>
        ensures enrolled { EnrolOutcome self.old self.new cells.now register.old register.new serial.now result }
        ensures lawful { Lawful C.Counter.model (state_of self.old cells.now register.old) (enrol serial.now) (is_ok result) (state_of self.new cells.now register.new) }
    {
        let record = self.may_enrol(cells.len(), register, serial)?;
        Ok(self.put_next(register, record))
    }
}
