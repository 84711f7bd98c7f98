// What a lane answers.
ghost use Rattle.std.specs.Prelude.{◌≡◌};
ghost use Rattle.compare.specs.declared.answer.LaneFault.TheVariants.{Counter, Memory};

use std::alloc::AllocFailed;
use window::CounterFault;

// How many plays were live in truth, and a counter's low and high.
#[derive(Clone, Copy)]
pub struct Answer {
    pub truth: u32,
    pub low: u32,
    pub high: u32,
}

// Why a play was not taken.
#[derive(Clone, Copy)]
pub enum LaneFault {
    Counter(CounterFault),
    Memory,
}

impl From<CounterFault> for LaneFault {
    ghost from_gives = { λ f r. r ≡ Counter f };

    fn from(fault: CounterFault) -> LaneFault {
        LaneFault::Counter(fault)
    }
}

impl From<AllocFailed<u32>> for LaneFault {
    ghost from_gives = { λ _ r. r ≡ Memory };

    fn from(_full: AllocFailed<u32>) -> LaneFault {
        LaneFault::Memory
    }
}
