// The exponential histogram: buckets of arrivals, each with a size and the stamp of its newest arrival.
#![tactic(auto)]

ghost use Rattle.std.specs.Prelude.{◌≡◌, ℕ, ◌<◌, ◌≤◌, min, max, true, List, Decides};
ghost use Rattle.window.specs.Meaning.{Fresh};
ghost use Rattle.window.specs.Faults.{Counted, Took, most_taken};
ghost use Rattle.histogram.specs.Histograms.{new_histogram, may_follow, sound, high_at, advanced, stands_for, Sound, Reads, Gives, Arrives, Leaves, histogram_model};
ghost use Rattle.histogram.specs.Cases.{WorkedCases};
ghost use Rattle.histogram.specs.Laws;

pub mod levels;
mod tally;

use levels::{Level, carry_in, drop_dead};
use tally::Tally;
use window::admission::{has_room, in_turn, permit};
use window::settings::{fineness_from, in_range, window_from};
use window::{Counter, CounterFault};

// The limit, and the most arrivals that buckets may hold.
const LIMIT: u32 = 4_095;

// The buckets by size: the first level has size 1, each later one double the size before. The record
// lies in lent memory and may hold anything, so its settings and counts are plain numbers.
#[derive(Clone, Copy, PartialEq, Eq, Debug)]
pub struct Histogram {
    pub window: u32,
    pub fineness: u8,
    pub last: u32,
    pub taken: u32,
    pub levels: [Level; 12],
}

// Whether a level of `number` buckets may come after one of `before`.
fn may_follow(fineness: u8, before: u8, number: u8) -> bool
    requires fine { fineness ≤ 6 }
    ensures follows { result ≡ may_follow fineness before number }
{
    number <= fineness + 1 && (number == 0 || before >= fineness)
}

impl Histogram {
    // Whether the histogram is sound.
    pub fn is_sound(&self) -> bool
        ensures test { result ≡ sound self.now }
        ensures decides { Decides result (Sound self.now) }
        ensures stands { (xs : List ℕ) → stands_for self.now xs ≡ true → result ≡ true }
    {
        self.read(0, 0).is_some()
    }

    // Low and high at t over v, None where the histogram is not sound: one pass over the buckets tells both.
    fn read(&self, t: u32, v: u32) -> Option<(u32, u32)>
        ensures reads { Reads self.now t v result }
    {
        if !in_range(self.window, self.fineness) {
            return None;
        }
        let mut tally = Tally {
            top: self.last,
            sum: 0,
            low: 0,
            high: 0,
        };
        let mut size: u32 = 1;
        let mut before = self.fineness;
        for level in &self.levels {
            if !may_follow(self.fineness, before, level.number) {
                return None;
            }
            tally = tally.read(level.in_use(), size, t, v)?;
            before = level.number;
            size *= 2;
        }
        (tally.sum <= LIMIT).then_some((tally.low, tally.high))
    }

    // Stamp t arrives at a sound histogram.
    fn arrive(&mut self, t: u32)
        requires sound { sound self.old ≡ true }
        requires in_time { self.old.last ≤ t }
        requires unspent { self.old.taken < most_taken }
        requires room { high_at self.old t self.old.window < 4095 }
        ensures arrives { Arrives self.old self.new t }
    {
        drop_dead(&mut self.levels, t, self.window);
        carry_in(&mut self.levels, self.fineness, t);
        self.advance(t);
    }

    // Stamp t is the newest. The levels stay.
    fn advance(&mut self, t: u32)
        requires unspent { self.old.taken < most_taken }
        ensures advanced { self.new ≡ advanced self.old t }
    {
        self.last = t;
        self.taken += 1;
    }
}

impl Counter for Histogram {
    ghost model = { histogram_model };

    ghost keeps = { Laws.keeps };

    fn make(window: u32, fineness: u8) -> Histogram
        ensures fresh { Fresh histogram_model window fineness result }
        ensures sound { Sound result }
        ensures made { result ≡ new_histogram (max 1 window) (max 1 (min 6 fineness)) }
    {
        Histogram {
            window: window_from(window),
            fineness: fineness_from(fineness),
            last: 0,
            taken: 0,
            levels: [Level {
                number: 0,
                stamps: [0; 7],
            }; 12],
        }
    }

    // What a histogram tells stands in its own impl, as in the other counters': a shared struct of the four fields would only add a layer.
    fn window(&self) -> u32 {
        self.window
    }

    fn fineness(&self) -> u8 {
        self.fineness
    }

    fn limit(&self) -> u32 {
        LIMIT
    }

    fn last(&self) -> u32 {
        self.last
    }

    fn taken(&self) -> u32 {
        self.taken
    }

    // Counting and taking are as the wave's but for what reads the record: a common body would want a trait for that alone.
    fn count(&self, t: u32, v: u32) -> Result<(u32, u32), CounterFault>
        ensures counted { Counted histogram_model self.now t v result }
        ensures gives { Gives self.now t v result }
    {
        permit(self.last, self.window, t, v)?;
        Ok(self.read(t, v).unwrap_or((0, 0)))
    }

    fn take(&mut self, t: u32) -> Result<(), CounterFault>
        ensures took { Took histogram_model self.old self.new t result }
        ensures leaves { Leaves self.old self.new t result }
    {
        in_turn(self.last, self.taken, t)?;
        match self.read(t, self.window) {
            Some((_, high)) => {
                has_room(high, LIMIT)?;
                self.arrive(t);
            }
            None => self.advance(t),
        }
        Ok(())
    }
}

// The worked cases follow from the definitions.
pub fn worked_cases_stand()
    ensures cases { WorkedCases }
{}
