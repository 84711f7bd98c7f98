// What a board holds. Its cells and its register are lent to it with every call, apart, since a call may change one of them only.
ghost use Rattle.std.specs.Prelude.{◌^◌, ◌≤◌};

use sketch::shape::Sketch;

// No more cabinets are enrolled than there are keys.
#[derive(Clone, Copy)]
pub struct Board {
    // a flag, as the board is a plain struct: the numbers beside it are 0 before opening
    pub opened: bool,
    // the shape, with the board's own copy of the seed words
    pub sketch: Sketch,
    pub enrolled: u32,
    // the last accepted stamp
    pub clock: u32,
    // how many plays were accepted
    pub accepted: u32,
    ghost room: { enrolled ≤ 2 ^ sketch.bits },
}
