// What a board does over several calls.
use crate::halls::*;
use board::calls::Answer;
use board::faults::{Fault, Refusal};
use board::held::Board;
use board::openings::Dimensions;
use board::records::Record;
use listing::Listed;
use sketch::faults::CellFault;
use std::process::Abort;
use std::test::*;
use window::{Counter, CounterFault};

fn full(level: u32, row: u32, column: u32, stamp: u32) -> Fault {
    Fault::Cell(CellFault {
        level,
        row,
        column,
        stamp,
        fault: CounterFault::Full,
    })
}

// Whether each cell has taken so many stamps, or none, the last one at t.
fn taken_or_none<C: Counter>(rt: &impl Abort, cells: &[C], many: u32, t: u32) -> Result<(), Fail> {
    for cell in cells {
        let taken = cell.taken();
        assert!(rt; taken == 0 || taken == many && cell.last() == t);
    }
    Ok(())
}

// As many plays at one stamp as a cell takes; the next is refused by the first cell, and no cell takes it.
pub fn full_cells<C: Counter>(
    rt: &impl Abort,
    limit: u32,
    cells: &mut [C],
    register: &mut [Record],
) -> Result<(), Fail> {
    let mut board = Board::closed();
    open_with(&mut board, cells, register, 2)?;
    play_times(&mut board, cells, register, b'A', 10, limit)?;
    let a = serial(b'A');
    let first = Err(full(0, 0, 0, 109));
    assert_eq!(rt; play(&mut board, cells, register, &a, 109), first);
    assert_eq!(rt; board.clock, 10);
    assert_eq!(rt; board.accepted, limit);
    taken_or_none(rt, cells, limit, 10)?;
    let answer = play(&mut board, cells, register, &a, 110);
    assert!(rt; answer.is_ok());
    Ok(())
}

// One cell was told from outside until it was full: it is named, though a play comes to others first, and those take nothing.
pub fn full_cell_further_on<C: Counter>(
    rt: &impl Abort,
    cells: &mut [C],
    register: &mut [Record],
) -> Result<(), Fail> {
    let mut board = Board::closed();
    open_with(&mut board, cells, register, 2)?;
    assert!(rt; cells.len() == 12);
    for _ in 0..5000 {
        let mut told = cells[6];
        let _ = told.take(10);
        cells[6] = told;
    }
    let later = Err(full(1, 1, 0, 10));
    assert_eq!(rt; play(&mut board, cells, register, &serial(b'A'), 10), later);
    assert_eq!(rt; cells[0].taken(), 0);
    assert_eq!(rt; cells[2].taken(), 0);
    assert_eq!(rt; board.accepted, 0);
    Ok(())
}

// Serials that differ in the last byte only are two cabinets.
pub fn twins<C: Counter>(
    rt: &impl Abort,
    cells: &mut [C],
    register: &mut [Record],
) -> Result<(), Fail> {
    let mut board = Board::closed();
    open_with(&mut board, cells, register, 2)?;
    play_times(&mut board, cells, register, b'A', 10, 1)?;
    let one = Ok(Answer::Estimate(1, 1));
    assert_eq!(rt;
        ask(&mut board, cells, register, &serial(b'A'), 10, 100),
        one
    );
    let none = Ok(Answer::Estimate(0, 0));
    assert_eq!(rt;
        ask(&mut board, cells, register, &serial(b'B'), 10, 100),
        none
    );
    Ok(())
}

// A refused opening leaves the board as it was, and an accepted one begins anew.
pub fn opened_again<C: Counter>(
    rt: &impl Abort,
    cells: &mut [C],
    register: &mut [Record],
) -> Result<(), Fail> {
    let mut board = Board::closed();
    open_with(&mut board, cells, register, 2)?;
    play_times(&mut board, cells, register, b'A', 10, 3)?;
    let wide = Dimensions { bits: 11, ..SHAPE };
    assert_eq!(rt;
        board.open(wide, &WORDS, cells, register),
        Err(Fault::Board(Refusal::OutOfRange))
    );
    let three = Ok(Answer::Estimate(3, 3));
    assert_eq!(rt; range(&mut board, cells, register, (0, 3), 10, 100), three);
    assert_eq!(rt; board.open(SHAPE, &WORDS, cells, register), Ok(12));
    let none = Ok(Answer::Estimate(0, 0));
    assert_eq!(rt; range(&mut board, cells, register, (0, 3), 0, 100), none);
    let unknown = Err(Fault::Board(Refusal::NotEnrolled));
    assert_eq!(rt;
        ask(&mut board, cells, register, &serial(b'A'), 10, 100),
        unknown
    );
    let first = Ok(Answer::Key(0));
    assert_eq!(rt; enrol(&mut board, cells, register, &serial(b'B')), first);
    Ok(())
}

// The list has the busy key, and the places after it keep what they held.
pub fn listed<C: Counter>(
    rt: &impl Abort,
    cells: &mut [C],
    register: &mut [Record],
) -> Result<(), Fail> {
    let mut board = Board::closed();
    open_with(&mut board, cells, register, 2)?;
    play_times(&mut board, cells, register, b'A', 10, 1)?;
    play_times(&mut board, cells, register, b'B', 10, 3)?;
    let mut places: [Listed; 3] = [UNWRITTEN; 3];
    assert_eq!(rt;
        list(&mut board, cells, register, &mut places, 3, 10, 100),
        Ok(Answer::Count(1))
    );
    assert_eq!(rt; places[0].key, 1);
    assert_eq!(rt; places[0].high, 3);
    assert_eq!(rt; places[1].key, 77);
    assert_eq!(rt; places[2].high, 77);
    Ok(())
}
