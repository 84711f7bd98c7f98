// Window counters: one meaning, several ways to hold it.
#![tactic(auto)]

ghost use Rattle.std.specs.Prelude.{◌≡◌};
ghost use Rattle.window.specs.Meaning.{Model, Keeps, Fresh};
ghost use Rattle.window.specs.Faults.{Counted, Took, number};

pub mod admission;
pub mod settings;
pub mod stamps;

// Why a counter refuses.
#[derive(Clone, Copy, PartialEq, Eq, Debug)]
pub enum CounterFault {
    // the stamp or time is before the last stamp
    Early,
    // the span is 0 or above the window
    Span,
    // as many stamps are taken as may be
    Spent,
    // the high over the window has reached the limit
    Full,
}

impl CounterFault {
    // The number by which the fault is known. A method, not a conversion: the numbers are published
    // beside the faults of the crates above, and only the name says which numbers they are.
    pub fn number(self) -> u8
        ensures numbered { result ≡ number self }
    {
        match self {
            CounterFault::Early => 9,
            CounterFault::Span => 10,
            CounterFault::Spent => 13,
            CounterFault::Full => 14,
        }
    }
}

// A counter of the stamps that are live at a time over a span.
pub trait Counter: Copy {
    // what a held value means
    ghost model: { Model Self };

    fn make(window: u32, fineness: u8) -> Self
        ensures fresh { Fresh model window fineness result };

    fn window(&self) -> u32
        ensures told { result ≡ model.window self.now };

    fn fineness(&self) -> u8
        ensures told { result ≡ model.fineness self.now };

    fn limit(&self) -> u32
        ensures told { result ≡ model.limit self.now };

    // The newest stamp of each list that it stands for.
    fn last(&self) -> u32
        ensures told { result ≡ model.last self.now };

    // How many stamps each list has that it stands for.
    fn taken(&self) -> u32
        ensures told { result ≡ model.taken self.now };

    // Low and high of how many stamps are live at t over v.
    fn count(&self, t: u32, v: u32) -> Result<(u32, u32), CounterFault>
        ensures counted { Counted model self.now t v result };

    // One arrival more, or a refusal that leaves all as it was.
    fn take(&mut self, t: u32) -> Result<(), CounterFault>
        ensures took { Took model self.old self.new t result };

    // the law: that meaning keeps the rules
    ghost keeps: { Keeps model };
}
