// Why a line is refused: by the board, or by how it is written.
ghost use Rattle.std.specs.Prelude.{◌≡◌};
ghost use Rattle.reply.specs.Faults as Told;
ghost use Rattle.reply.specs.declared.faults.DeskFault.TheVariants.{Board, Line};

use board::faults::Fault;
use logline::LineFault;

// A refusal of the board, or of the line itself.
#[derive(Clone, Copy)]
pub enum DeskFault {
    Board(Fault),
    Line(LineFault),
}

impl DeskFault {
    // The number by which a fault is known. A method, since a fault is no number: its name says which number this is.
    pub fn number(self) -> u32
        ensures numbered { result ≡ Told.number self }
    {
        match self {
            DeskFault::Board(fault) => u32::from(fault.number()),
            DeskFault::Line(fault) => fault.number(),
        }
    }
}

impl From<Fault> for DeskFault {
    ghost from_gives = { λ f r. r ≡ Board f };

    fn from(fault: Fault) -> DeskFault {
        DeskFault::Board(fault)
    }
}

impl From<LineFault> for DeskFault {
    ghost from_gives = { λ f r. r ≡ Line f };

    fn from(fault: LineFault) -> DeskFault {
        DeskFault::Line(fault)
    }
}
