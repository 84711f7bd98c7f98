// What cells say of a node and of a key range, at a time over a span.
ghost use Rattle.std.specs.Prelude.{◌≡◌, ◌+◌, ◌-◌, ◌/◌, ◌^◌, ◌<◌, ◌≤◌, length};
ghost use Rattle.std.specs.Int.{div_ceil};
ghost use Rattle.sketch.specs.Layout.{shape_of};
ghost use Rattle.sketch.specs.Answers.{RowsAnswer, HighAnswer, NodeAnswer, ReachAnswer, RangeAnswer};
ghost use Rattle.sketch.specs.Nodes.{largest_clear};
ghost use Rattle.sketch.specs.Pieces.{odd_ends};
ghost use Rattle.sketch.specs.Laws.{Lawful, NodeHolds, RangeHolds};

use crate::faults::CellFault;
use crate::places::column_after;
use crate::question::Question;
use arrayvec::ArrayVec;
use window::Counter;

// The ends of a level, of the nodes from lo on and below hi, that are pieces: the first where it
// is a right half, and the last where it is a left half.
fn odd_ends(lo: u32, hi: u32) -> ArrayVec<u32, 2>
    ensures ends { result.items ≡ odd_ends lo hi }
{
    let mut ends = ArrayVec::new();
    if lo < hi {
        if lo % 2 == 1 {
            ends.push(lo);
        }
        if hi % 2 == 1 {
            ends.push(hi - 1);
        }
    }
    ends
}

// Each call has its own bound on the level: with a type for a node of a level, its maker and the
// three public calls would still ask for it.
impl<C: Counter> Question<'_, C> {
    // How many nodes of a level cover an enrolled key: the first ones do.
    fn covering(&self, level: u32) -> u32
        requires level { level ≤ self.now.sketch.now.bits }
        ensures many { result ≡ div_ceil self.now.enrolled (2 ^ level) }
    {
        self.enrolled.div_ceil(1 << level)
    }

    // The lows of a node's cells, row by row, and the node's high.
    fn rows(&self, level: u32, node: u32) -> Result<(ArrayVec<u32, 4>, u32), CellFault>
        requires level { level ≤ self.now.sketch.now.bits }
        ensures answered { RowsAnswer C.Counter.model (shape_of self.now.sketch.now) self.now.cells.now self.now.t self.now.v level node result }
    {
        let mut lows = ArrayVec::new();
        let mut high = u32::MAX;
        for row in 0..self.sketch.rows {
            let row = self.sketch.row(level, row);
            let (least, most) = row.count(self.cells, node, self.t, self.v)?;
            lows.push(least);
            high = high.min(most);
        }
        Ok((lows, high))
    }

    // The largest low among the node's clear rows. A row that cannot raise it is not looked at further.
    fn low(&self, level: u32, node: u32, lows: &[u32]) -> u32
        requires level { level ≤ self.now.sketch.now.bits }
        requires rows { length lows.now ≡ self.now.sketch.now.rows }
        ensures largest { result ≡ largest_clear (shape_of self.now.sketch.now) self.now.enrolled level node lows.now }
    {
        let mut low = 0;
        'rows: for (row, least) in (0..self.sketch.rows).zip(lows) {
            if *least <= low {
                continue 'rows;
            }
            let row = self.sketch.row(level, row);
            let own = row.column(node);
            let runs = row.runs();
            let mut column = 0;
            for other in 0..self.covering(level) {
                column = column_after(column, other, &runs);
                if other != node && column == own {
                    continue 'rows;
                }
            }
            low = *least;
        }
        low
    }

    // The high of a node.
    pub fn high(&self, level: u32, node: u32) -> Result<u32, CellFault>
        requires level { level ≤ self.now.sketch.now.bits }
        ensures answered { HighAnswer C.Counter.model (shape_of self.now.sketch.now) self.now.cells.now self.now.t self.now.v level node result }
    {
        let (_, high) = self.rows(level, node)?;
        Ok(high)
    }

    // The low and high of a node whose high is g or more; of another no row is tested for clearness.
    pub fn node_reaching(
        &self,
        level: u32,
        node: u32,
        g: u32,
    ) -> Result<Option<(u32, u32)>, CellFault>
        requires level { level ≤ self.now.sketch.now.bits }
        ensures answered { ReachAnswer C.Counter.model (shape_of self.now.sketch.now) self.now.cells.now self.now.enrolled self.now.t self.now.v level node g result }
    {
        let (lows, high) = self.rows(level, node)?;
        if high < g {
            return Ok(None);
        }
        Ok(Some((self.low(level, node, &lows), high)))
    }

    // The low and high of a node.
    pub fn node(&self, level: u32, node: u32) -> Result<(u32, u32), CellFault>
        requires level { level ≤ self.now.sketch.now.bits }
        ensures answered { NodeAnswer C.Counter.model (shape_of self.now.sketch.now) self.now.cells.now self.now.enrolled self.now.t self.now.v level node result }
        ensures lawful { Lawful C.Counter.model (shape_of self.now.sketch.now) self.now.cells.now self.now.enrolled self.now.t self.now.v (λ plays. NodeHolds (shape_of self.now.sketch.now) self.now.enrolled plays self.now.t self.now.v level node) result }
    {
        let (lows, high) = self.rows(level, node)?;
        Ok((self.low(level, node, &lows), high))
    }

    // The low and high of the keys from first to last: a walk over the levels with both ends,
    // each a piece where its parent is not wholly in the range.
    pub fn range(&self, first: u32, last: u32) -> Result<(u64, u64), CellFault>
        requires order { first ≤ last }
        requires within { last < 2 ^ self.now.sketch.now.bits }
        ensures answered { RangeAnswer C.Counter.model (shape_of self.now.sketch.now) self.now.cells.now self.now.enrolled self.now.t self.now.v first last result }
        ensures lawful { Lawful C.Counter.model (shape_of self.now.sketch.now) self.now.cells.now self.now.enrolled self.now.t self.now.v (λ plays. RangeHolds (shape_of self.now.sketch.now) self.now.enrolled plays self.now.t self.now.v first last) result }
    {
        let mut low: u64 = 0;
        let mut high: u64 = 0;
        let mut lo = first;
        let mut hi = last + 1;
        for level in 0..=self.sketch.bits {
            for node in &odd_ends(lo, hi) {
                let (least, most) = self.node(level, *node)?;
                low += u64::from(least);
                high += u64::from(most);
            }
            (lo, hi) = (lo.div_ceil(2), hi / 2);
        }
        Ok((low, high))
    }
}
