// Telling a stamp to the cells of a key: in every level and row, or nowhere.
ghost use Rattle.std.specs.Prelude.{◌≡◌, length};
ghost use Rattle.sketch.specs.Layout.{shape_of, cell_number};
ghost use Rattle.sketch.specs.Telling.{order, TellsFrom, TellsFaithfully};

use crate::faults::{CellFault, at_cell};
use crate::rows::Row;
use crate::shape::Sketch;
use window::Counter;

impl Row<'_> {
    // Tells the cells of the key from this row on. Each is copied out and told, and stored back
    // only when all after it took the stamp: so a refusal leaves every cell as it was.
    fn tell_from<C: Counter>(&self, cells: &mut [C], key: u32, t: u32) -> Result<(), CellFault>
        requires sized { length cells.old ≡ cell_number (shape_of self.now.sketch.now) }
        ensures tells { TellsFrom C.Counter.model (shape_of self.now.sketch.now) key t (order (shape_of self.now.sketch.now) self.now.level self.now.row) cells.old cells.new result }
    {
        let column = self.column(key >> self.level);
        let place = self.place(column);
        let mut told = cells[place];
        at_cell(told.take(t), self.level, self.row, column, t)?;
        if let Some(row) = self.after() {
            row.tell_from(cells, key, t)?;
        }
        cells[place] = told;
        Ok(())
    }
}

impl Sketch {
    // Tells stamp t to the cell of the key's node in every level and row, or to none.
    pub fn tell<C: Counter>(&self, cells: &mut [C], key: u32, t: u32) -> Result<(), CellFault>
        requires sized { length cells.old ≡ cell_number (shape_of self.now) }
        ensures tells { TellsFrom C.Counter.model (shape_of self.now) key t 0 cells.old cells.new result }
        ensures faithful { TellsFaithfully C.Counter.model (shape_of self.now) key t cells.old cells.new result }
    {
        self.row(0, 0).tell_from(cells, key, t)
    }
}
