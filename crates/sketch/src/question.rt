// A question put to the cells.
ghost use Rattle.std.specs.Prelude.{◌≡◌, ◌^◌, ◌≤◌, length};
ghost use Rattle.sketch.specs.Layout.{shape_of, cell_number};

use crate::shape::Sketch;
use window::Counter;

// At time t over span v, with so many keys enrolled. There are as many cells as the sketch has. Calls
// and counters take t and v as plain arguments, as they are made with them.
#[derive(Drop)]
pub struct Question<'a, C: Counter> {
    pub sketch: &'a Sketch,
    pub cells: &'a [C],
    pub enrolled: u32,
    pub t: u32,
    pub v: u32,
    ghost sized: { length cells.now ≡ cell_number (shape_of sketch.now) },
    ghost room: { enrolled ≤ 2 ^ sketch.now.bits },
}
