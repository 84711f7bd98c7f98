// Runs of the histogram.
#![tactic(auto)]

#[cfg(test)]
mod tests {
    use histogram::Histogram;
    use std::process::Abort;
    use std::test::Fail;
    use window::{Counter, CounterFault};

    // How many of the stamps are live at t over v: counted here, by nothing that the histogram is made of.
    fn exact(stamps: &[u32], t: u32, v: u32) -> usize {
        stamps.iter().filter(|s| **s <= t && t - **s < v).count()
    }

    // A histogram counts these stamps as it should at t over v.
    fn agrees(rt: &impl Abort, c: &Histogram, stamps: &[u32], t: u32, v: u32) -> Result<(), Fail> {
        let (low, high) = c.count(t, v)?;
        let live = exact(stamps, t, v);
        assert!(rt; low as usize <= live);
        assert!(rt; live <= high as usize);
        assert!(rt; u32::from(c.fineness()).wrapping_mul(high.wrapping_sub(low)) <= low);
        Ok(())
    }

    #[test]
    fn worked_cases(rt: HostRuntime) -> Result<(), Fail> {
        let mut c = <Histogram as Counter>::make(100, 1);
        for t in 1..8 {
            c.take(t)?;
        }
        assert_eq!(rt; c.count(7, 7)?, (4, 7));
        assert_eq!(rt; c.count(7, 4)?, (4, 7));
        assert_eq!(rt; c.count(7, 3)?, (2, 3));
        assert_eq!(rt; c.count(106, 100)?, (1, 1));
        assert_eq!(rt; c.count(107, 100)?, (0, 0));
        Ok(())
    }

    // Made full with stamps of 5, refused with 14, and going on once they are dead.
    fn fills(rt: &impl Abort, fineness: u8, low: u32) -> Result<(), Fail> {
        let mut c = <Histogram as Counter>::make(10, fineness);
        for _ in 0..4095 {
            c.take(5)?;
        }
        assert_eq!(rt; c.count(14, 10)?, (low, 4095));
        let full = c;
        assert_eq!(rt; c.take(14), Err(CounterFault::Full));
        assert_eq!(rt; c, full);
        assert_eq!(rt; (c.last(), c.taken()), (5, 4095));
        c.take(15)?;
        assert_eq!(rt; c.count(15, 10)?, (1, 1));
        assert!(rt; c.is_sound());
        assert_eq!(rt; (c.last(), c.taken()), (15, 4096));
        Ok(())
    }

    #[test]
    fn fills_coarse(rt: HostRuntime) -> Result<(), Fail> {
        fills(&rt, 1, 2048)
    }

    #[test]
    fn fills_fine(rt: HostRuntime) -> Result<(), Fail> {
        fills(&rt, 6, 3584)
    }

    #[test]
    fn made_in_range(rt: HostRuntime) {
        let c = <Histogram as Counter>::make(0, 0);
        assert_eq!(rt; (c.window(), c.fineness()), (1, 1));
        let d = <Histogram as Counter>::make(9, 200);
        assert_eq!(rt; (d.window(), d.fineness()), (9, 6));
        assert_eq!(rt; d.limit(), 4095);
    }

    #[test]
    fn refusals(rt: HostRuntime) -> Result<(), Fail> {
        let mut c = <Histogram as Counter>::make(100, 2);
        c.take(50)?;
        assert_eq!(rt; c.count(49, 1), Err(CounterFault::Early));
        assert_eq!(rt; c.count(50, 0), Err(CounterFault::Span));
        assert_eq!(rt; c.count(50, 101), Err(CounterFault::Span));
        assert_eq!(rt; c.take(49), Err(CounterFault::Early));
        c.taken = 16_777_215;
        assert_eq!(rt; c.take(50), Err(CounterFault::Spent));
        Ok(())
    }

    // A record that is not sound counts nothing, and taking changes only the last stamp and the number taken.
    fn holds_nothing(rt: &impl Abort, mut c: Histogram) -> Result<(), Fail> {
        let before = c;
        assert!(rt; !c.is_sound());
        assert_eq!(rt; c.count(200, c.window.max(1)).unwrap_or((0, 0)), (0, 0));
        c.take(200)?;
        assert_eq!(rt;
            c,
            Histogram {
                last: 200,
                taken: before.taken.wrapping_add(1),
                ..before
            }
        );
        Ok(())
    }

    #[test]
    fn unsound_records(rt: HostRuntime) -> Result<(), Fail> {
        let mut c = <Histogram as Counter>::make(100, 2);
        for t in 100..120 {
            c.take(t)?;
        }
        assert!(rt; c.is_sound());
        let mut d = c;
        d.window = 0;
        holds_nothing(&rt, d)?;
        d = c;
        d.fineness = 7;
        holds_nothing(&rt, d)?;
        d = c;
        d.levels[0].number = 200;
        holds_nothing(&rt, d)?;
        d = c;
        d.levels[1].number = 0;
        holds_nothing(&rt, d)?;
        d = c;
        d.levels[0].stamps[1] = 120;
        holds_nothing(&rt, d)?;
        d = c;
        d.last = 118;
        holds_nothing(&rt, d)
    }

    #[test]
    fn equal_stamps(rt: HostRuntime) -> Result<(), Fail> {
        let stamps = [9; 20];
        let mut c = <Histogram as Counter>::make(100, 3);
        for s in &stamps {
            c.take(*s)?;
        }
        agrees(&rt, &c, &stamps, 9, 1)?;
        agrees(&rt, &c, &stamps, 108, 100)?;
        assert_eq!(rt; c.count(109, 100)?, (0, 0));
        Ok(())
    }

    // Some thousand stamps beside the list of them all, at many times and spans.
    fn long_run(rt: &(impl Abort + AllocGlobal), fineness: u8, seed: u32) -> Result<(), Fail> {
        let mut stamps = Vec::new(rt.alloc());
        let mut c = <Histogram as Counter>::make(600, fineness);
        let mut t: u32 = 0;
        let mut x = seed;
        for _ in 0..3000 {
            x = xorshift::next(x);
            if x % 4 == 0 {
                t = t.wrapping_add((x >> 8) % 9);
            }
            c.take(t)?;
            stamps.push(t)?;
            let later = t.wrapping_add((x >> 12) % 50);
            agrees(rt, &c, &stamps, t, 600)?;
            agrees(rt, &c, &stamps, later, (x >> 20) % 600 + 1)?;
        }
        assert!(rt; c.is_sound());
        Ok(())
    }

    #[test]
    fn long_run_coarse(rt: HostRuntime) -> Result<(), Fail> {
        long_run(&rt, 1, 2463534242)
    }

    #[test]
    fn long_run_fine(rt: HostRuntime) -> Result<(), Fail> {
        long_run(&rt, 6, 88675123)
    }
}
