// A sketch from its seed words, and questions to it.
ghost use Rattle.std.specs.Prelude.{◌≡◌, ◌+◌, ◌*◌, ◌^◌, ◌<◌, ◌≤◌, length};
ghost use Rattle.sketch.specs.Layout.{shape_of, cell_number};

use ring::Ring;
use sketch::faults::CellFault;
use sketch::question::Question;
use sketch::shape::Sketch;
use std::process::Abort;
use std::test::Fail;
use window::{Counter, CounterFault};

// How many keys are enrolled, the asked time and the span.
#[derive(Clone, Copy)]
pub struct Asked {
    pub enrolled: u32,
    pub t: u32,
    pub v: u32,
}

impl Asked {
    // The question put to these cells.
    pub fn of<'a, C: Counter>(self, sketch: &'a Sketch, cells: &'a [C]) -> Question<'a, C>
        requires sized { length cells.now ≡ cell_number (shape_of sketch.now) }
        requires room { self.enrolled ≤ 2 ^ sketch.now.bits }
        ensures same { result.sketch.now ≡ sketch.now }
    {
        Question {
            sketch,
            cells,
            enrolled: self.enrolled,
            t: self.t,
            v: self.v,
        }
    }
}

// A sketch with these seed words, each brought to a column, and 0 for the others.
pub fn sketch_with(bits: u32, rows: u32, spread: u32, seeds: &[u16]) -> Sketch
    requires bits { bits ≤ 10 }
    requires some_row { 0 < rows }
    requires rows { rows ≤ 4 }
    requires spread { spread ≤ 8 }
    ensures bits { result.bits ≡ bits }
    ensures rows { result.rows ≡ rows }
    ensures spread { result.spread ≡ spread }
    ensures cells { cell_number (shape_of result) ≡ (bits + 1) * rows * 2 ^ spread }
{
    let width: u16 = 1 << spread;
    let mut words: [u16; 440] = [0; 440];
    // by index: a proof does not know what was written through the items of `iter_mut().zip(..)`
    for (p, seed) in seeds.iter().enumerate() {
        if p < 440 {
            words[p] = *seed % width;
        }
    }
    Sketch {
        window: 50,
        fineness: 1,
        bits,
        rows,
        spread,
        words,
    }
}

// The refusal of the cell of this level, row and column.
pub fn refusal(level: u32, row: u32, column: u32, stamp: u32, fault: CounterFault) -> CellFault {
    CellFault {
        level,
        row,
        column,
        stamp,
        fault,
    }
}

// Tells the stamps of the key, one after the other.
pub fn tell_stamps<C: Counter>(
    sketch: &Sketch,
    cells: &mut [C],
    key: u32,
    stamps: &[u32],
) -> Result<(), CellFault>
    requires sized { length cells.old ≡ cell_number (shape_of sketch.now) }
{
    for t in stamps {
        sketch.tell(cells, key, *t)?;
    }
    Ok(())
}

// Tells each of 8 keys, one more time than its number.
pub fn tell_each<C: Counter>(sketch: &Sketch, cells: &mut [C], t: u32) -> Result<(), CellFault>
    requires sized { length cells.old ≡ cell_number (shape_of sketch.now) }
{
    for key in 0..8 {
        for _ in 0..=key {
            sketch.tell(cells, key, t)?;
        }
    }
    Ok(())
}

// Tells plays of 8 keys to exact cells and to others, and asks both for key ranges: the exact
// number lies between the estimates of the others, and is not always one of them.
pub fn compare_run<C: Counter>(
    rt: &impl Abort,
    exact: &Sketch,
    exact_cells: &mut [Ring],
    rough: &Sketch,
    rough_cells: &mut [C],
) -> Result<(), Fail>
    requires exact_sized { length exact_cells.old ≡ cell_number (shape_of exact.now) }
    requires rough_sized { length rough_cells.old ≡ cell_number (shape_of rough.now) }
    requires exact_keys { 8 ≤ 2 ^ exact.now.bits }
    requires rough_keys { 8 ≤ 2 ^ rough.now.bits }
{
    let mut x: u32 = 1;
    let mut t: u32 = 0;
    let mut lows: u64 = 0;
    let mut lives: u64 = 0;
    let mut highs: u64 = 0;
    for _ in 0..400 {
        x = xorshift::next(x);
        t = t.saturating_add(x % 3);
        let key = x / 4 % 8;
        exact.tell(exact_cells, key, t)?;
        rough.tell(rough_cells, key, t)?;
        let asked = Asked {
            enrolled: 8,
            t,
            v: x / 32 % 50 + 1,
        };
        let last = x / 4096 % 8;
        let first = last.min(key);
        let (live, same) = asked.of(exact, exact_cells).range(first, last)?;
        let (low, high) = asked.of(rough, rough_cells).range(first, last)?;
        assert_eq!(rt; live, same);
        assert!(rt; low <= live);
        assert!(rt; live <= high);
        lows = lows.saturating_add(low);
        lives = lives.saturating_add(live);
        highs = highs.saturating_add(high);
    }
    assert!(rt; lows < lives && lives < highs);
    Ok(())
}
