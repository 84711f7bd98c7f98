// One counter's way through an evening: what it answers, and how it did.
use crate::answer::{Answer, LaneFault};
use crate::lane::Lane;
use anyhow::anyhow;
use std::alloc::Global;
use std::io::Write;
use window::Counter;

// How a counter did.
#[derive(Clone, Copy, Default)]
struct Tally {
    taken: u32,
    refused: u32,
    asked: u32,
    exact: u32,
    widest: u32,
}

#[derive(Drop)]
pub struct Course<C: Counter> {
    name: &'static str,
    lane: Lane<C>,
    tally: Tally,
}

impl<C: Counter> Course<C> {
    pub(crate) fn new(heap: Global, name: &'static str, window: u32, fineness: u8) -> Self {
        Course {
            name,
            lane: Lane::new(heap, window, fineness),
            tally: Tally::default(),
        }
    }

    // A play: a refusal is said with the line's number.
    pub(crate) fn play<W: Write>(&mut self, out: &mut W, line: u64, t: u32) -> anyhow::Result<()> {
        let name = self.name;
        match self.lane.play(t) {
            Ok(()) => self.tally.taken = self.tally.taken.saturating_add(1),
            Err(LaneFault::Memory) => return Err(anyhow!("no memory for the plays")),
            Err(LaneFault::Counter(fault)) => {
                self.tally.refused = self.tally.refused.saturating_add(1);
                let number = fault.number();
                writeln!(
                    out,
                    "line {line}: {name} refuses the play at {t} with {number}"
                )?;
            }
        }
        Ok(())
    }

    // A question: the truth beside low and high.
    pub(crate) fn ask<W: Write>(
        &mut self,
        out: &mut W,
        line: u64,
        t: u32,
        span: u32,
    ) -> anyhow::Result<()> {
        let name = self.name;
        match self.lane.ask(t, span) {
            Ok(Answer { truth, low, high }) => {
                let gap = high.saturating_sub(low);
                self.tally.asked = self.tally.asked.saturating_add(1);
                if gap == 0 {
                    self.tally.exact = self.tally.exact.saturating_add(1);
                }
                self.tally.widest = self.tally.widest.max(gap);
                writeln!(
                    out,
                    "  {name:<10} truth {truth:>5}  low {low:>5}  high {high:>5}"
                )?;
            }
            Err(fault) => {
                let number = fault.number();
                writeln!(
                    out,
                    "line {line}: {name} refuses the question at {t} over {span} with {number}"
                )?;
            }
        }
        Ok(())
    }

    // How it did over the evening.
    pub(crate) fn close<W: Write>(&self, out: &mut W) -> anyhow::Result<()> {
        let name = self.name;
        let Tally {
            taken,
            refused,
            asked,
            exact,
            widest,
        } = self.tally;
        writeln!(
            out,
            "  {name:<10} took {taken}, refused {refused}; answered {asked}, {exact} of them exactly; widest gap {widest}"
        )?;
        Ok(())
    }
}
