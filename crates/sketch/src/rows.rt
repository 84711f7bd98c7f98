// The rows of a level: each has seed words and cells of its own.
ghost use Rattle.std.specs.Prelude.{◌≡◌, ℕ, ◌+◌, ◌*◌, ◌<◌, ◌≤◌, length, slice_index};
ghost use Rattle.std.specs.Option.{MatchOption};
ghost use Rattle.arrayvec.specs.ArrayVec.{array_vec_len};
ghost use Rattle.sketch.specs.Layout.{shape_of, width, column, run, place, cell_number};
ghost use Rattle.sketch.specs.Answers.{CellCounted};
ghost use Rattle.sketch.specs.Telling.{order};

use crate::faults::{CellFault, at_cell};
use crate::shape::Sketch;
use arrayvec::ArrayVec;
use window::Counter;

// A row that the sketch has.
#[derive(Clone, Copy)]
pub(crate) struct Row<'a> {
    pub(crate) sketch: &'a Sketch,
    pub(crate) level: u32,
    pub(crate) row: u32,
    ghost level_within: { level ≤ sketch.now.bits },
    ghost row_within: { row < sketch.now.rows },
}

impl<'a> Row<'a> {
    // The place of a cell.
    pub(crate) fn place(&self, column: u32) -> usize
        ensures at { result ≡ place (shape_of self.now.sketch.now) self.now.level self.now.row column }
        ensures within { column < width (shape_of self.now.sketch.now) → result < cell_number (shape_of self.now.sketch.now) }
    {
        let width: usize = 1 << self.sketch.spread;
        (self.level * self.sketch.rows + self.row) as usize * width + column as usize
    }

    // The seed words, one for each bit.
    fn words(&self) -> &'a [u16]
        ensures many { length result.now ≡ self.now.sketch.now.bits }
        ensures own { (b : ℕ) → b < self.now.sketch.now.bits → slice_index result.now b ≡ slice_index self.now.sketch.now.words ((self.now.level * self.now.sketch.now.rows + self.now.row) * self.now.sketch.now.bits + b) }
    {
        let bits = self.sketch.bits as usize;
        let start = (self.level * self.sketch.rows + self.row) as usize * bits;
        let words = &self.sketch.words[..];
        &words[start..start + bits]
    }

    // The column of a node: the exclusive or of the words at the set bits of its number.
    pub(crate) fn column(&self, node: u32) -> u32
        ensures mixed { result ≡ column (shape_of self.now.sketch.now) self.now.level self.now.row node }
        ensures within { result < width (shape_of self.now.sketch.now) }
    {
        let mut mixed: u16 = 0;
        for (b, word) in self.words().iter().enumerate() {
            if (node >> b) % 2 == 1 {
                mixed ^= *word;
            }
        }
        u32::from(mixed)
    }

    // The running exclusive ors of the words: at b that of the words for bits 0 to b.
    pub(crate) fn runs(&self) -> ArrayVec<u16, 10>
        ensures many { array_vec_len result ≡ self.now.sketch.now.bits }
        ensures running { (b : ℕ) → b < self.now.sketch.now.bits → slice_index result.items b ≡ run self.now.sketch.now.words ((self.now.level * self.now.sketch.now.rows + self.now.row) * self.now.sketch.now.bits) (b + 1) }
    {
        let mut runs = ArrayVec::new();
        let mut mixed: u16 = 0;
        for word in self.words() {
            mixed ^= *word;
            runs.push(mixed);
        }
        runs
    }

    // The count of the cell of a node. The cells come apart, since a row is also told through cells that change.
    pub(crate) fn count<C: Counter>(
        &self,
        cells: &[C],
        node: u32,
        t: u32,
        v: u32,
    ) -> Result<(u32, u32), CellFault>
        requires sized { length cells.now ≡ cell_number (shape_of self.now.sketch.now) }
        ensures counted { CellCounted C.Counter.model (shape_of self.now.sketch.now) cells.now self.now.level self.now.row (column (shape_of self.now.sketch.now) self.now.level self.now.row node) t v result }
    {
        let column = self.column(node);
        let place = self.place(column);
        at_cell(cells[place].count(t, v), self.level, self.row, column, t)
    }

    // The row after this one, by level and then row, or none after the last.
    pub(crate) fn after(&self) -> Option<Row<'a>>
        ensures next { MatchOption result (order (shape_of self.now.sketch.now) self.now.level self.now.row + 1 ≡ (self.now.sketch.now.bits + 1) * self.now.sketch.now.rows) (λ r. (r.sketch.now ≡ self.now.sketch.now) × (order (shape_of self.now.sketch.now) r.level r.row ≡ order (shape_of self.now.sketch.now) self.now.level self.now.row + 1)) }
    {
        if self.row + 1 < self.sketch.rows {
            Some(self.sketch.row(self.level, self.row + 1))
        } else if self.level < self.sketch.bits {
            Some(self.sketch.row(self.level + 1, 0))
        } else {
            None
        }
    }
}
