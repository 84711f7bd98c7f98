// Nodes, columns and places.
ghost use Rattle.std.specs.Prelude.{◌≡◌, ◌^◌, ◌<◌, ◌≤◌, bit_xor, length, slice_index};
ghost use Rattle.std.specs.Int.Count.{count_trailing_zeros};
ghost use Rattle.sketch.specs.Layout.{shape_of, column, place, cell_number};

use crate::rows::Row;
use crate::shape::Sketch;

impl Sketch {
    // How many cells there are.
    pub fn cell_number(&self) -> usize
        ensures many { result ≡ cell_number (shape_of self.now) }
    {
        let width: usize = 1 << self.spread;
        ((self.bits + 1) * self.rows) as usize * width
    }

    // The row of a level.
    pub(crate) fn row(&self, level: u32, row: u32) -> Row<'_>
        requires level { level ≤ self.now.bits }
        requires row { row < self.now.rows }
        ensures sketch { result.sketch.now ≡ self.now }
        ensures level { result.level ≡ level }
        ensures row { result.row ≡ row }
    {
        Row {
            sketch: self,
            level,
            row,
        }
    }

    // The place of a cell.
    pub fn place(&self, level: u32, row: u32, column: u32) -> usize
        requires level { level ≤ self.now.bits }
        requires row { row < self.now.rows }
        ensures at { result ≡ place (shape_of self.now) level row column }
    {
        self.row(level, row).place(column)
    }

    // The column of a node.
    pub fn column(&self, level: u32, row: u32, node: u32) -> u32
        requires level { level ≤ self.now.bits }
        requires row { row < self.now.rows }
        ensures mixed { result ≡ column (shape_of self.now) level row node }
    {
        self.row(level, row).column(node)
    }
}

// The column of a node, by that of the node before it and its row's runs: the two numbers differ
// in the bits up to the lowest set one.
pub(crate) fn column_after(before: u32, node: u32, runs: &[u16]) -> u32
    requires node { node < 2 ^ length runs.now }
    ensures first { node ≡ 0 → result ≡ 0 }
    ensures later { 0 < node → result ≡ bit_xor before (slice_index runs.now (count_trailing_zeros 32 node)) }
{
    if node == 0 {
        0
    } else {
        before ^ u32::from(runs[node.trailing_zeros() as usize])
    }
}
