// A counter beside the plays that it took, so that its answers can be held against the truth.
ghost use Rattle.std.specs.Prelude.{◌≡◌, [], ◌≤◌, length};
ghost use Rattle.window.specs.Meaning.{Fresh, Stands};
ghost use Rattle.window.specs.Faults.{most_taken};
ghost use Rattle.compare.specs.Lanes.{Answered, Played};

use crate::answer::{Answer, LaneFault};
use std::alloc::Global;
use window::stamps::live_among;
use window::{Counter, CounterFault};

// The counter stands for the plays, of which there are no more than a counter takes.
#[derive(Drop)]
pub struct Lane<C: Counter> {
    counter: C,
    plays: Vec<u32>,
    ghost stands: { Stands C.Counter.model counter plays.items },
    ghost few: { length plays.items ≤ most_taken },
}

impl<C: Counter> Lane<C> {
    // No play yet.
    pub fn new(heap: Global, window: u32, fineness: u8) -> Self
        ensures fresh { Fresh C.Counter.model window fineness result.counter }
        ensures empty { result.plays.items ≡ [] }
    {
        Lane {
            counter: C::make(window, fineness),
            plays: Vec::new(heap),
        }
    }

    // One play more, or a refusal that leaves all as it was.
    pub fn play(&mut self, t: u32) -> Result<(), LaneFault>
        ensures played { Played C.Counter.model self.old.counter self.old.plays.items self.new.plays.items t result }
    {
        let mut told = self.counter;
        told.take(t)?;
        self.plays.push(t)?;
        self.counter = told;
        Ok(())
    }

    // The counter's low and high at t over v, beside the number of plays live in truth.
    pub fn ask(&self, t: u32, v: u32) -> Result<Answer, CounterFault>
        ensures answered { Answered C.Counter.model self.now.counter self.now.plays.items t v result }
    {
        let (low, high) = self.counter.count(t, v)?;
        let truth = live_among(&self.plays, t, v);
        Ok(Answer { truth, low, high })
    }
}
