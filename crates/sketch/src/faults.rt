// A cell's refusal, with where the cell stands.
ghost use Rattle.sketch.specs.Answers.{PassedOn};

use window::CounterFault;

// Which cell refused, the stamp or time that it refused, and why.
#[derive(Clone, Copy, PartialEq, Eq, Debug)]
pub struct CellFault {
    pub level: u32,
    pub row: u32,
    pub column: u32,
    pub stamp: u32,
    pub fault: CounterFault,
}

// A counter's answer; a refusal is told with the cell's level, row and column and the stamp.
pub fn at_cell<T>(
    answer: Result<T, CounterFault>,
    level: u32,
    row: u32,
    column: u32,
    stamp: u32,
) -> Result<T, CellFault>
    ensures passed { PassedOn answer level row column stamp result }
{
    answer.map_err(|fault| CellFault {
        level,
        row,
        column,
        stamp,
        fault,
    })
}
