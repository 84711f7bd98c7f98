// Why a line is turned away.
ghost use Rattle.std.specs.Prelude.{◌≡◌};
ghost use Rattle.logline.specs.Faults.{number_of};

// A line that cannot be read, or an event that cannot be written.
#[derive(Clone, Copy, PartialEq, Debug)]
pub enum LineFault {
    // too few places are lent for a line
    Room { needed: usize },
    // the line is not of any form, from this place on
    Form { place: usize },
}

impl LineFault {
    // The number that a reply gives for this fault. A method, since a fault is no number: its name says which number this is.
    pub fn number(&self) -> u32
        ensures told { result ≡ number_of self.now }
    {
        match self {
            LineFault::Room { .. } => 15,
            LineFault::Form { .. } => 16,
        }
    }
}
