// Lists of the busy cabinets.
ghost use Rattle.std.specs.Prelude.{◌≤◌, length, is_ok};
ghost use Rattle.daybook.specs.Book as Book;
ghost use Rattle.daybook.specs.Runs.{Lawful};
ghost use Rattle.board.specs.Causes.{Tested, threshold_causes, list_causes};
ghost use Rattle.board.specs.Held.{state_of};
ghost use Rattle.board.specs.Lists.{HandedOver, ListOutcome};

use crate::faults::{Fault, Refusal};
use crate::held::Board;
use crate::records::Record;
use arrayvec::ArrayVec;
use listing::Listed;
use listing::lists::list;
use window::Counter;

// Puts the entries that were found into the places, where there are places for all of them, and says how many they are.
fn hand_over(found: &[Listed], places: &mut [Listed]) -> Result<u32, Refusal>
    requires few { length found.now ≤ 1024 }
    ensures handed { HandedOver found.now places.old places.new result }
{
    let needed = found.len() as u32;
    if found.len() > places.len() {
        return Err(Refusal::NoRoom { needed });
    }
    places[..found.len()].copy_from_slice(found);
    Ok(needed)
}

// Whether a threshold may be asked for.
fn some_threshold(least: u32) -> Result<(), Refusal>
    ensures tested { Tested (threshold_causes least) result }
{
    if least == 0 {
        return Err(Refusal::NoThreshold);
    }
    Ok(())
}

impl Board {
    // Whether a list is made, but for the cells and the places for its keys.
    fn may_list(
        &self,
        cells: usize,
        register: &[Record],
        least: u32,
        t: u32,
        v: u32,
    ) -> Result<(), Refusal>
        ensures tested { Tested (list_causes self.now cells (length register.now) least t v) result }
    {
        self.ready(cells, register)?;
        self.permits(t, v)?;
        some_threshold(least)
    }

    // Writes, in key order, key, low and high of each enrolled key whose node has high `least` or
    // more at every level, and answers how many there are. They are found apart first, so that a
    // refusal leaves the places as they were.
    pub fn list<'a, C: Counter>(
        &'a self,
        cells: &'a [C],
        register: &[Record],
        least: u32,
        t: u32,
        v: u32,
        places: &mut [Listed],
    ) -> Result<u32, Fault>
        ensures listed { ListOutcome C.Counter.model self.now cells.now register.now places.old places.new least t v result }
        ensures lawful { Lawful C.Counter.model (state_of self.now cells.now register.now) (Book.list least t v) (is_ok result) (state_of self.now cells.now register.now) }
    {
        self.may_list(cells.len(), register, least, t, v)?;
        let mut found = ArrayVec::new();
        list(&self.question(cells, t, v), least, &mut found)?;
        Ok(hand_over(found.as_slice(), places)?)
    }
}
