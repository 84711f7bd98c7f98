// The wave as a window counter.
ghost use Rattle.std.specs.Prelude.{◌≡◌, min, max, true};
ghost use Rattle.window.specs.Faults.{Took};
ghost use Rattle.window.specs.Meaning.{Fresh};
ghost use Rattle.wave.specs.Waves.{sound, fresh, wave_model};
ghost use Rattle.wave.specs.Takings.{Recorded};
ghost use Rattle.wave.specs.Standing.{wave_keeps};

use crate::Wave;
use crate::survey::LIMIT;
use window::admission::{has_room, in_turn, permit};
use window::settings::{fineness_from, window_from};
use window::{Counter, CounterFault};

impl Counter for Wave {
    ghost model = { wave_model };

    ghost keeps = { wave_keeps };

    fn make(window: u32, fineness: u8) -> Wave
        ensures fresh { Fresh wave_model window fineness result }
        ensures made { result ≡ fresh (max 1 window) (max 1 (min 6 fineness)) }
        ensures sound { sound result ≡ true }
    {
        Wave {
            window: window_from(window),
            fineness: fineness_from(fineness),
            last: 0,
            taken: 0,
            stamps: [0; 104],
        }
    }

    // What a wave tells stands in its own impl, as in the other counters': a shared struct of the four fields would only add a layer.
    fn window(&self) -> u32 {
        self.window
    }

    fn fineness(&self) -> u8 {
        self.fineness
    }

    fn limit(&self) -> u32 {
        LIMIT
    }

    fn last(&self) -> u32 {
        self.last
    }

    fn taken(&self) -> u32 {
        self.taken
    }

    // Counting and taking are as the histogram's but for what reads the record: a common body would want a trait for that alone.
    fn count(&self, t: u32, v: u32) -> Result<(u32, u32), CounterFault> {
        permit(self.last, self.window, t, v)?;
        Ok(self.survey(t, v).unwrap_or((0, 0)))
    }

    fn take(&mut self, t: u32) -> Result<(), CounterFault>
        ensures took { Took wave_model self.old self.new t result }
        ensures recorded { Recorded self.old self.new t result }
        ensures stays_sound { sound self.old ≡ true → sound self.new ≡ true }
    {
        in_turn(self.last, self.taken, t)?;
        match self.survey(t, self.window) {
            Some((_, high)) => {
                has_room(high, LIMIT)?;
                self.arrive(t);
            }
            None => self.advance(t),
        }
        Ok(())
    }
}
