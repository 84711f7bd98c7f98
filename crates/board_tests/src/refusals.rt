// Each refusal once, with its values.
use crate::halls::*;
use board::calls::Answer;
use board::faults::{Fault, Refusal};
use board::held::Board;
use board::openings::Dimensions;
use board::records::Record;
use listing::Listed;
use std::process::Abort;
use std::test::*;
use window::Counter;

fn out_of_range<C: Counter>(
    rt: &impl Abort,
    shape: Dimensions,
    cells: &mut [C],
    register: &mut [Record],
) -> Result<(), Fail> {
    let mut board = Board::closed();
    let answer = board.open(shape, &WORDS, cells, register);
    assert_eq!(rt; answer, Err(Fault::Board(Refusal::OutOfRange)));
    Ok(())
}

pub fn shapes_out_of_range<C: Counter>(
    rt: &impl Abort,
    cells: &mut [C],
    register: &mut [Record],
) -> Result<(), Fail> {
    out_of_range(rt, Dimensions { window: 0, ..SHAPE }, cells, register)?;
    out_of_range(
        rt,
        Dimensions {
            fineness: 0,
            ..SHAPE
        },
        cells,
        register,
    )?;
    out_of_range(
        rt,
        Dimensions {
            fineness: 7,
            ..SHAPE
        },
        cells,
        register,
    )?;
    out_of_range(rt, Dimensions { bits: 11, ..SHAPE }, cells, register)?;
    out_of_range(rt, Dimensions { rows: 0, ..SHAPE }, cells, register)?;
    out_of_range(rt, Dimensions { rows: 5, ..SHAPE }, cells, register)?;
    out_of_range(rt, Dimensions { spread: 9, ..SHAPE }, cells, register)
}

// What opening with these words answers.
pub fn opening<C: Counter>(
    words: &[u16],
    cells: &mut [C],
    register: &mut [Record],
) -> Result<u32, Fault> {
    let mut board = Board::closed();
    board.open(SHAPE, words, cells, register)
}

pub fn nothing_before_opening<C: Counter>(
    rt: &impl Abort,
    cells: &mut [C],
    register: &mut [Record],
) -> Result<(), Fail> {
    let mut board = Board::closed();
    let closed = Err(Fault::Board(Refusal::NotOpened));
    assert_eq!(rt; enrol(&mut board, cells, register, b"no serial"), closed);
    assert_eq!(rt; play(&mut board, cells, register, b"no serial", 0), closed);
    assert_eq!(rt;
        ask(&mut board, cells, register, b"no serial", 0, 0),
        closed
    );
    assert_eq!(rt; range(&mut board, cells, register, (1, 0), 0, 0), closed);
    assert_eq!(rt; list(&mut board, cells, register, &mut [], 0, 0, 0), closed);
    Ok(())
}

// The calls after opening want the cells and the register that the board was opened with.
pub fn lent_too_little<C: Counter>(
    rt: &impl Abort,
    cells: &mut [C],
    few_cells: &mut [C],
    register: &mut [Record],
    few_records: &mut [Record],
) -> Result<(), Fail> {
    let mut board = Board::closed();
    open_with(&mut board, cells, register, 1)?;
    let wrong = Err(Fault::Board(Refusal::WrongSize));
    assert_eq!(rt; range(&mut board, few_cells, register, (1, 0), 0, 0), wrong);
    assert_eq!(rt; enrol(&mut board, cells, few_records, b"no serial"), wrong);
    Ok(())
}

pub fn serials<C: Counter>(
    rt: &impl Abort,
    cells: &mut [C],
    register: &mut [Record],
) -> Result<(), Fail> {
    let mut board = Board::closed();
    open_with(&mut board, cells, register, 3)?;
    let none = Err(Fault::Board(Refusal::NotASerial));
    assert_eq!(rt; enrol(&mut board, cells, register, b"SHORT"), none);
    assert_eq!(rt; enrol(&mut board, cells, register, &serial(b'a')), none);
    let long = b"CAB00000000000AAA";
    assert_eq!(rt; play(&mut board, cells, register, long, 0), none);
    let second = Err(Fault::Board(Refusal::AlreadyEnrolled { key: 1 }));
    assert_eq!(rt; enrol(&mut board, cells, register, &serial(b'B')), second);
    let fourth = Ok(Answer::Key(3));
    assert_eq!(rt; enrol(&mut board, cells, register, &serial(b'D')), fourth);
    let crowded = Err(Fault::Board(Refusal::NoKeyLeft));
    assert_eq!(rt; enrol(&mut board, cells, register, &serial(b'E')), crowded);
    assert_eq!(rt; enrol(&mut board, cells, register, &serial(b'B')), second);
    let unknown = Err(Fault::Board(Refusal::NotEnrolled));
    assert_eq!(rt;
        play(&mut board, cells, register, &serial(b'E'), 0),
        unknown
    );
    Ok(())
}

pub fn times<C: Counter>(
    rt: &impl Abort,
    cells: &mut [C],
    register: &mut [Record],
) -> Result<(), Fail> {
    let mut board = Board::closed();
    open_with(&mut board, cells, register, 2)?;
    let a = serial(b'A');
    let taken = Ok(Answer::Taken(1));
    assert_eq!(rt; play(&mut board, cells, register, &a, 30), taken);
    let late = Err(Fault::Board(Refusal::BeforeClock { clock: 30 }));
    assert_eq!(rt; play(&mut board, cells, register, &a, 29), late);
    assert_eq!(rt; ask(&mut board, cells, register, &a, 29, 0), late);
    let span = Err(Fault::Board(Refusal::BadSpan));
    assert_eq!(rt; ask(&mut board, cells, register, &a, 30, 101), span);
    assert_eq!(rt; range(&mut board, cells, register, (1, 0), 30, 0), span);
    let keys = Err(Fault::Board(Refusal::BadKeys));
    assert_eq!(rt; range(&mut board, cells, register, (0, 4), 30, 100), keys);
    assert_eq!(rt; range(&mut board, cells, register, (1, 0), 30, 100), keys);
    let some = Err(Fault::Board(Refusal::NoThreshold));
    assert_eq!(rt;
        list(&mut board, cells, register, &mut [], 0, 30, 100),
        some
    );
    board.accepted = 16_777_215;
    let all = Err(Fault::Board(Refusal::AllPlaysTaken));
    assert_eq!(rt; play(&mut board, cells, register, &a, 30), all);
    Ok(())
}

// Two cabinets are busy, and there is one place: two are needed, and the place keeps what it held.
pub fn lists_without_room<C: Counter>(
    rt: &impl Abort,
    cells: &mut [C],
    register: &mut [Record],
) -> Result<(), Fail> {
    let mut board = Board::closed();
    open_with(&mut board, cells, register, 2)?;
    play_times(&mut board, cells, register, b'A', 5, 2)?;
    play_times(&mut board, cells, register, b'B', 5, 2)?;
    let mut places: [Listed; 1] = [UNWRITTEN];
    assert_eq!(rt;
        list(&mut board, cells, register, &mut places, 2, 5, 100),
        Err(Fault::Board(Refusal::NoRoom { needed: 2 }))
    );
    assert_eq!(rt; places[0].key, 77);
    Ok(())
}
