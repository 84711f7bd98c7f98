// The shape numbers that a board is opened with.
#[derive(Clone, Copy)]
pub struct Dimensions {
    pub window: u32,
    pub fineness: u32,
    // how many bits a key has
    pub bits: u32,
    // how many rows a level has
    pub rows: u32,
    // a row has 2 to the power of this many cells
    pub spread: u32,
}
