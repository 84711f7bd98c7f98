// Why a call is refused.
ghost use Rattle.std.specs.Prelude.{◌≡◌};
ghost use Rattle.board.specs.Faults.{refusal_number, number};
ghost use Rattle.board.specs.declared.faults.Fault.TheVariants.{Board, Cell};

use sketch::faults::CellFault;

// A refusal that the board itself gives.
#[derive(Clone, Copy, PartialEq, Eq, Debug)]
pub enum Refusal {
    // a call other than open on a board not yet opened
    NotOpened,
    // a shape number outside its range
    OutOfRange,
    // cells, words or register of the wrong size
    WrongSize,
    // a seed word that is no column: the place of the first
    WideWord { place: u32 },
    // not sixteen bytes of 0 to 9 or A to Z
    NotASerial,
    // the serial is enrolled already: its key
    AlreadyEnrolled { key: u32 },
    // as many cabinets are enrolled as there are keys
    NoKeyLeft,
    // the serial is not enrolled
    NotEnrolled,
    // the stamp or time is before the clock, which it tells
    BeforeClock { clock: u32 },
    // the span is 0 or above the window
    BadSpan,
    // the first key is above the last, or the last is no key
    BadKeys,
    // the threshold is 0
    NoThreshold,
    // as many plays are accepted as may be
    AllPlaysTaken,
    // too few places: how many are needed
    NoRoom { needed: u32 },
}

// A refusal of the board, or of one of its cells, which is named.
#[derive(Clone, Copy, PartialEq, Eq, Debug)]
pub enum Fault {
    Board(Refusal),
    Cell(CellFault),
}

impl Refusal {
    // The number by which a refusal is known. A method, since a refusal is no number: its name says which number this is.
    pub fn number(self) -> u8
        ensures numbered { result ≡ refusal_number self }
    {
        match self {
            Refusal::NotOpened => 1,
            Refusal::OutOfRange => 2,
            Refusal::WrongSize => 3,
            Refusal::WideWord { .. } => 4,
            Refusal::NotASerial => 5,
            Refusal::AlreadyEnrolled { .. } => 6,
            Refusal::NoKeyLeft => 7,
            Refusal::NotEnrolled => 8,
            Refusal::BeforeClock { .. } => 9,
            Refusal::BadSpan => 10,
            Refusal::BadKeys => 11,
            Refusal::NoThreshold => 12,
            Refusal::AllPlaysTaken => 13,
            Refusal::NoRoom { .. } => 15,
        }
    }
}

impl Fault {
    // The number by which a fault is known, under the same name as a refusal's.
    pub fn number(self) -> u8
        ensures numbered { result ≡ number self }
    {
        match self {
            Fault::Board(refusal) => refusal.number(),
            Fault::Cell(cell) => cell.fault.number(),
        }
    }
}

impl From<Refusal> for Fault {
    ghost from_gives = { λ f r. r ≡ Board f };

    fn from(refusal: Refusal) -> Fault {
        Fault::Board(refusal)
    }
}

impl From<CellFault> for Fault {
    ghost from_gives = { λ f r. r ≡ Cell f };

    fn from(cell: CellFault) -> Fault {
        Fault::Cell(cell)
    }
}
