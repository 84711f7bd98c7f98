// Tests of the causes of refusal, each over what it is about.
ghost use Rattle.std.specs.Prelude.{◌≡◌, length, take};
ghost use Rattle.sketch.specs.Layout.{shape_of, keys};
ghost use Rattle.board.specs.Serials.{serials, serials_of, IsKey};
ghost use Rattle.board.specs.Causes.{Tested, Unless, ready_causes, time_causes, keys_causes, stamp_causes, known_causes, range_causes, ask_causes, play_causes};

use crate::faults::Refusal;
use crate::held::Board;
use crate::records::{Enrolled, Record, record_of};
use window::admission::MOST_TAKEN;

impl Board {
    // How many keys there are.
    pub(crate) fn keys(&self) -> u32
        ensures many { result ≡ keys (shape_of self.now.sketch) }
    {
        1 << self.sketch.bits
    }

    // The enrolled records, where it is opened, and lent as many cells and records as it wants.
    pub(crate) fn ready<'a>(
        &self,
        cells: usize,
        register: &'a [Record],
    ) -> Result<Enrolled<'a>, Refusal>
        ensures ready { Unless (ready_causes self.now cells (length register.now)) (λ enrolled. enrolled.records.now ≡ take self.now.enrolled register.now) result }
    {
        if !self.opened {
            return Err(Refusal::NotOpened);
        }
        if cells != self.sketch.cell_number() || register.len() < self.keys() as usize {
            return Err(Refusal::WrongSize);
        }
        Ok(Enrolled {
            records: &register[..self.enrolled as usize],
        })
    }

    // Whether t and v may be asked. Not the counters' `permit`, as a board's refusal tells the clock.
    pub(crate) fn permits(&self, t: u32, v: u32) -> Result<(), Refusal>
        ensures tested { Tested (time_causes self.now t v) result }
    {
        if t < self.clock {
            return Err(Refusal::BeforeClock { clock: self.clock });
        }
        if v == 0 || v > self.sketch.window {
            return Err(Refusal::BadSpan);
        }
        Ok(())
    }

    // Whether the keys from first to last are a range.
    pub(crate) fn spans(&self, first: u32, last: u32) -> Result<(), Refusal>
        ensures tested { Tested (keys_causes self.now first last) result }
    {
        if first > last || last >= self.keys() {
            return Err(Refusal::BadKeys);
        }
        Ok(())
    }

    // Whether stamp t may be the next one. Not the counters' `in_turn`, for the same reason.
    pub(crate) fn in_turn(&self, t: u32) -> Result<(), Refusal>
        ensures tested { Tested (stamp_causes self.now t) result }
    {
        if t < self.clock {
            return Err(Refusal::BeforeClock { clock: self.clock });
        }
        if self.accepted >= MOST_TAKEN {
            return Err(Refusal::AllPlaysTaken);
        }
        Ok(())
    }

    // Whether a question about a key range is answered.
    pub(crate) fn may_range(
        &self,
        cells: usize,
        register: &[Record],
        first: u32,
        last: u32,
        t: u32,
        v: u32,
    ) -> Result<(), Refusal>
        ensures tested { Tested (range_causes self.now cells (length register.now) first last t v) result }
    {
        self.ready(cells, register)?;
        self.permits(t, v)?;
        self.spans(first, last)
    }

    // Whether a question about a cabinet is answered: its key.
    pub(crate) fn may_ask(
        &self,
        cells: usize,
        register: &[Record],
        serial: &[u8],
        t: u32,
        v: u32,
    ) -> Result<u32, Refusal>
        ensures known { Unless (ask_causes self.now cells register.now serial.now t v) (IsKey (serials_of self.now.enrolled register.now) serial.now) result }
    {
        let key = self.ready(cells, register)?.known(serial)?;
        self.permits(t, v)?;
        Ok(key)
    }

    // Whether a play is taken, but for the cells: the cabinet's key.
    pub(crate) fn may_play(
        &self,
        cells: usize,
        register: &[Record],
        serial: &[u8],
        t: u32,
    ) -> Result<u32, Refusal>
        ensures known { Unless (play_causes self.now cells register.now serial.now t) (IsKey (serials_of self.now.enrolled register.now) serial.now) result }
    {
        let key = self.ready(cells, register)?.known(serial)?;
        self.in_turn(t)?;
        Ok(key)
    }
}

impl Enrolled<'_> {
    // The key of a serial that should be enrolled.
    fn known(&self, serial: &[u8]) -> Result<u32, Refusal>
        ensures known { Unless (known_causes (serials self.now.records.now) serial.now) (IsKey (serials self.now.records.now) serial.now) result }
    {
        let sought = record_of(serial).ok_or(Refusal::NotASerial)?;
        self.key_of(&sought).ok_or(Refusal::NotEnrolled)
    }
}
