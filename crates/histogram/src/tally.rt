// One pass over buckets, newest first: whether stamps rise, and what is counted.
ghost use Rattle.std.specs.Prelude.{◌≡◌, ◌+◌, ◌*◌, ◌^◌, ◌<◌, ◌≤◌, map, length, IfSome};
ghost use Rattle.histogram.specs.Buckets.{bucket};
ghost use Rattle.histogram.specs.Readings.{Widened, GoesOn};

use window::stamps::is_live;

// Of the buckets read so far: the oldest stamp, the sum of sizes, and low and high.
#[derive(Clone, Copy)]
pub(crate) struct Tally {
    pub(crate) top: u32,
    pub(crate) sum: u32,
    pub(crate) low: u32,
    pub(crate) high: u32,
}

impl Tally {
    // The tally with one older bucket; where it is live it is the oldest live one so far.
    fn widened(self, size: u32, stamp: u32, t: u32, v: u32) -> Tally
        requires some { 0 < size }
        requires high { self.high ≤ self.sum }
        requires fits { self.sum + size < 2 ^ 32 }
        ensures widened { Widened t v size stamp self result }
    {
        let sum = self.sum + size;
        if is_live(stamp, t, v) {
            Tally {
                top: stamp,
                sum,
                low: self.high + 1,
                high: self.high + size,
            }
        } else {
            Tally {
                top: stamp,
                sum,
                ..self
            }
        }
    }

    // The tally with the buckets of one size more, None where a stamp rises.
    pub(crate) fn read(self, stamps: &[u32], size: u32, t: u32, v: u32) -> Option<Tally>
        requires some { 0 < size }
        requires few { length stamps.now ≤ 7 }
        requires high { self.high ≤ self.sum }
        requires fits { self.sum + 7 * size < 2 ^ 32 }
        ensures goes_on { GoesOn t v (map (bucket size) stamps.now) self result }
        ensures bounded { IfSome result (λ d. (d.high ≤ d.sum) × (d.sum ≤ self.sum + 7 * size)) }
    {
        let mut tally = self;
        for stamp in stamps {
            if *stamp > tally.top {
                return None;
            }
            tally = tally.widened(size, *stamp, t, v);
        }
        Some(tally)
    }
}
