// The calls of a board as numbers and bytes, each with what is lent to it as a caller lends it, and a small shape to open it with.
use board::calls::{Answer, Call};
use board::faults::Fault;
use board::held::Board;
use board::openings::Dimensions;
use board::records::Record;
use listing::Listed;
use window::Counter;

// What the places hold before a list is written to them.
pub const UNWRITTEN: Listed = Listed {
    key: 77,
    low: 77,
    high: 77,
};

pub const EMPTY: Record = Record { serial: [0; 16] };

// Four keys, and on each of three levels two rows of two columns: twelve cells.
pub const SHAPE: Dimensions = Dimensions {
    window: 100,
    fineness: 2,
    bits: 2,
    rows: 2,
    spread: 1,
};

// By these words the keys 0 to 3 have the columns 0, 1, 1, 0 in the first row of level 0, and 0, 1, 0, 1 in the second.
pub const WORDS: [u16; 12] = [1, 1, 1, 0, 1, 0, 1, 0, 0, 0, 0, 0];

// The serial that ends with this byte.
pub fn serial(last: u8) -> [u8; 16] {
    let mut bytes = *b"CAB0000000000000";
    bytes[15] = last;
    bytes
}

pub fn enrol<C: Counter>(
    board: &mut Board,
    cells: &mut [C],
    register: &mut [Record],
    serial: &[u8],
) -> Result<Answer, Fault> {
    board.serve(cells, register, &mut [], Call::Enrol { serial })
}

pub fn play<C: Counter>(
    board: &mut Board,
    cells: &mut [C],
    register: &mut [Record],
    serial: &[u8],
    t: u32,
) -> Result<Answer, Fault> {
    board.serve(cells, register, &mut [], Call::Play { serial, t })
}

pub fn ask<C: Counter>(
    board: &mut Board,
    cells: &mut [C],
    register: &mut [Record],
    serial: &[u8],
    t: u32,
    v: u32,
) -> Result<Answer, Fault> {
    board.serve(cells, register, &mut [], Call::Ask { serial, t, v })
}

pub fn range<C: Counter>(
    board: &mut Board,
    cells: &mut [C],
    register: &mut [Record],
    keys: (u32, u32),
    t: u32,
    v: u32,
) -> Result<Answer, Fault> {
    let (first, last) = keys;
    board.serve(cells, register, &mut [], Call::Range { first, last, t, v })
}

pub fn list<C: Counter>(
    board: &mut Board,
    cells: &mut [C],
    register: &mut [Record],
    places: &mut [Listed],
    least: u32,
    t: u32,
    v: u32,
) -> Result<Answer, Fault> {
    board.serve(cells, register, places, Call::List { least, t, v })
}

// Opens the board, and enrols so many cabinets, whose serials end with A, B and so on.
pub fn open_with<C: Counter>(
    board: &mut Board,
    cells: &mut [C],
    register: &mut [Record],
    cabinets: u8,
) -> Result<(), Fault> {
    board.open(SHAPE, &WORDS, cells, register)?;
    for i in 0..cabinets.min(20) {
        enrol(board, cells, register, &serial(b'A' + i))?;
    }
    Ok(())
}

// Plays the cabinet whose serial ends so, at one stamp, so many times.
pub fn play_times<C: Counter>(
    board: &mut Board,
    cells: &mut [C],
    register: &mut [Record],
    last: u8,
    t: u32,
    times: u32,
) -> Result<(), Fault> {
    for _ in 0..times {
        play(board, cells, register, &serial(last), t)?;
    }
    Ok(())
}
