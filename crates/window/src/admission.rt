// The refusals that all counters share, tested over what a counter tells.
ghost use Rattle.window.specs.Faults.{Tested, question_causes, turn_causes, room_causes};

use crate::CounterFault;

// The most arrivals that a counter takes.
pub const MOST_TAKEN: u32 = 16_777_215;

// Whether a counter may be asked at t over v.
pub fn permit(last: u32, window: u32, t: u32, v: u32) -> Result<(), CounterFault>
    ensures tested { Tested (question_causes last window t v) result }
{
    if t < last {
        return Err(CounterFault::Early);
    }
    if v == 0 || v > window {
        return Err(CounterFault::Span);
    }
    Ok(())
}

// Whether stamp t may be the next one, by what came before it.
pub fn in_turn(last: u32, taken: u32, t: u32) -> Result<(), CounterFault>
    ensures tested { Tested (turn_causes last taken t) result }
{
    if t < last {
        return Err(CounterFault::Early);
    }
    if taken >= MOST_TAKEN {
        return Err(CounterFault::Spent);
    }
    Ok(())
}

// Whether there is room for one arrival more.
pub fn has_room(high: u32, limit: u32) -> Result<(), CounterFault>
    ensures tested { Tested (room_causes high limit) result }
{
    if high >= limit {
        return Err(CounterFault::Full);
    }
    Ok(())
}
