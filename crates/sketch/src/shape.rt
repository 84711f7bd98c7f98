// The shape of a sketch, with its seed words.
ghost use Rattle.std.specs.Prelude.{ℕ, ◌^◌, ◌<◌, ◌≤◌, slice_index};

// Every value is a shape in range, and each word is a column.
#[derive(Clone, Copy)]
pub struct Sketch {
    pub window: u32,
    pub fineness: u8,
    // how many bits a key has
    pub bits: u32,
    // how many rows a level has
    pub rows: u32,
    // a row has 2 to the power of this many cells
    pub spread: u32,
    // the word for bit b of level k and row r at place (k * rows + r) * bits + b; 440 at most, in the plain struct
    pub words: [u16; 440],
    ghost some_window: { 0 < window },
    ghost some_fineness: { 0 < fineness },
    ghost fineness_range: { fineness ≤ 6 },
    ghost bits_range: { bits ≤ 10 },
    ghost some_row: { 0 < rows },
    ghost rows_range: { rows ≤ 4 },
    ghost spread_range: { spread ≤ 8 },
    ghost words_fit: { (p : ℕ) → slice_index words p < 2 ^ spread },
}
