// Any one call on a board: what every program makes.
ghost use Rattle.std.specs.Prelude.{is_ok};
ghost use Rattle.daybook.specs.Runs.{Lawful};
ghost use Rattle.board.specs.Held.{state_of};
ghost use Rattle.board.specs.Serving.{called, Served};

use crate::calls::{Answer, Call};
use crate::faults::Fault;
use crate::held::Board;
use crate::records::Record;
use listing::Listed;
use window::Counter;

impl Board {
    // Serves one call. Whatever calls led here from opening, they and this one lead to what is
    // held then, and every answer that it allows holds against the day book of those calls.
    pub fn serve<C: Counter>(
        &mut self,
        cells: &mut [C],
        register: &mut [Record],
        places: &mut [Listed],
        call: Call,
    ) -> Result<Answer, Fault>
        ensures served { Served C.Counter.model self.old self.new cells.old cells.new register.old register.new places.old places.new call.entry result }
        ensures lawful { Lawful C.Counter.model (state_of self.old cells.old register.old) (called call.entry) (is_ok result) (state_of self.new cells.new register.new) }
    {
        match call {
            Call::Enrol { serial } => Ok(Answer::Key(self.enrol(cells, register, serial)?)),
            Call::Play { serial, t } => Ok(Answer::Taken(self.play(cells, register, serial, t)?)),
            Call::Ask { serial, t, v } => {
                let (low, high) = self.ask(cells, register, serial, t, v)?;
                Ok(Answer::Estimate(low, high))
            }
            Call::Range { first, last, t, v } => {
                let (low, high) = self.range(cells, register, first, last, t, v)?;
                Ok(Answer::Estimate(low, high))
            }
            Call::List { least, t, v } => Ok(Answer::Count(self.list(
                cells, register, least, t, v, places,
            )?)),
        }
    }
}
