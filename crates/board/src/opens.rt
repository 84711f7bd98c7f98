// Opening: the one call on a board that is not opened.
ghost use Rattle.std.specs.Prelude.{◌≡◌, ℕ, ◌-◌, ◌^◌, ◌<◌, ◌≤◌, true, false, ◌++◌, length, replicate, MatchOption, slice_index_or};
ghost use Rattle.window.specs.Meaning.{Fresh};
ghost use Rattle.board.specs.Causes.{Tested};
ghost use Rattle.board.specs.Outcomes.{Outcome};
ghost use Rattle.board.specs.Opening.{Fits, in_range, is_sized, first_wide, open_causes, SketchOf, OpenAnswer};
ghost use Rattle.board.specs.declared.records.Record.{Record as OneRecord};

use crate::faults::{Fault, Refusal};
use crate::held::Board;
use crate::openings::Dimensions;
use crate::records::Record;
use sketch::shape::Sketch;
use window::Counter;

impl Dimensions {
    // Whether each number lies in its range. Not the counters' test, as the fineness that is asked for is a wider number.
    fn in_range(self) -> bool
        ensures ranged { result ≡ in_range self }
    {
        self.window >= 1
            && (1..=6).contains(&self.fineness)
            && self.bits <= 10
            && (1..=4).contains(&self.rows)
            && self.spread <= 8
    }

    // Whether so many words, cells and records are what the shape wants. No sketch is there yet that could tell the numbers.
    fn is_sized(self, words: usize, cells: usize, records: usize) -> bool
        requires bits { self.bits ≤ 10 }
        requires rows { self.rows ≤ 4 }
        requires spread { self.spread ≤ 8 }
        ensures sized { result ≡ is_sized self words cells records }
    {
        let rows = ((self.bits + 1) * self.rows) as usize;
        let width: usize = 1 << self.spread;
        let keys: usize = 1 << self.bits;
        words == rows * self.bits as usize && cells == rows * width && records >= keys
    }
}

// The place of the first word that is no column.
fn first_wide(words: &[u16], width: u32) -> Option<usize>
    ensures first { MatchOption result (first_wide width words.now ≡ length words.now) (λ place. (place ≡ first_wide width words.now) × (place < length words.now)) }
{
    words.iter().position(|word| u32::from(*word) >= width)
}

// Whether a board is opened so: its first cause against it.
fn may_open(asked: Dimensions, words: &[u16], cells: usize, records: usize) -> Result<(), Refusal>
    ensures tested { Tested (open_causes asked words.now cells records) result }
{
    if !asked.in_range() {
        return Err(Refusal::OutOfRange);
    }
    if !asked.is_sized(words.len(), cells, records) {
        return Err(Refusal::WrongSize);
    }
    if let Some(place) = first_wide(words, 1 << asked.spread) {
        return Err(Refusal::WideWord {
            place: place as u32,
        });
    }
    Ok(())
}

// The board's own copy of the words, zeros after them.
fn own_words(words: &[u16]) -> [u16; 440]
    requires few { length words.now ≤ 440 }
    ensures copied { result ≡ words.now ++ replicate (440 - length words.now) 0 }
{
    let mut own = [0u16; 440];
    own[0..words.len()].copy_from_slice(words);
    own
}

// The sketch of these numbers and words.
fn sketch_of(asked: Dimensions, words: &[u16]) -> Sketch
    requires fits { Fits asked words.now }
    ensures made { SketchOf asked words.now result }
{
    Sketch {
        window: asked.window,
        fineness: asked.fineness as u8,
        bits: asked.bits,
        rows: asked.rows,
        spread: asked.spread,
        words: own_words(words),
    }
}

// Makes every cell new.
fn renew<C: Counter>(cells: &mut [C], window: u32, fineness: u8)
    ensures fresh { (k : ℕ) (d : C) → k < length cells.new → Fresh C.Counter.model window fineness (slice_index_or cells.new k d) }
{
    for cell in cells.iter_mut() {
        *cell = C::make(window, fineness);
    }
}

// Empties every record.
fn empty(register: &mut [Record])
    ensures empty { (k : ℕ) (d : OneRecord) → k < length register.new → (slice_index_or register.new k d).serial ≡ replicate 16 0 }
{
    register.fill(Record { serial: [0; 16] });
}

// A board newly opened: nothing is enrolled or played. Field by field, as a struct with an invariant takes no `..`.
fn begun(sketch: Sketch) -> Board
    ensures opened { result.opened ≡ true }
    ensures sketch { result.sketch ≡ sketch }
    ensures enrolled { result.enrolled ≡ 0 }
    ensures clock { result.clock ≡ 0 }
    ensures accepted { result.accepted ≡ 0 }
{
    Board {
        opened: true,
        sketch,
        enrolled: 0,
        clock: 0,
        accepted: 0,
    }
}

impl Board {
    // A board not yet opened: it refuses every call but open.
    pub fn closed() -> Board
        ensures closed { result.opened ≡ false }
        ensures enrolled { result.enrolled ≡ 0 }
        ensures clock { result.clock ≡ 0 }
        ensures accepted { result.accepted ≡ 0 }
    {
        let smallest = Dimensions {
            window: 1,
            fineness: 1,
            bits: 0,
            rows: 1,
            spread: 0,
        };
        Board {
            opened: false,
            sketch: sketch_of(smallest, &[]),
            enrolled: 0,
            clock: 0,
            accepted: 0,
        }
    }

    // Opens the board anew: every cell is new, and the register is empty. Answers the number of cells.
    pub fn open<C: Counter>(
        &mut self,
        asked: Dimensions,
        words: &[u16],
        cells: &mut [C],
        register: &mut [Record],
    ) -> Result<u32, Fault>
        ensures opened { Outcome (open_causes asked words.now (length cells.old) (length register.old)) ((self.new ≡ self.old) × (cells.new ≡ cells.old) × (register.new ≡ register.old)) (OpenAnswer C.Counter.model asked words.now self.new cells.new register.new) result }
    {
        may_open(asked, words, cells.len(), register.len())?;
        let sketch = sketch_of(asked, words);
        renew(cells, asked.window, asked.fineness as u8);
        empty(register);
        *self = begun(sketch);
        Ok(cells.len() as u32)
    }
}
