// The exact ring on examples: each is proved to end, and run.
#![tactic(auto)]

#[cfg(test)]
mod tests {
    use ring::Ring;
    use std::test::Fail;
    use window::{Counter, CounterFault};

    #[test]
    fn empty_ring_counts_none(rt: HostRuntime) {
        let ring = Ring::make(50, 2);
        assert_eq!(rt; ring.count(0, 50), Ok((0, 0)));
        assert_eq!(rt; ring.window(), 50);
        assert_eq!(rt; ring.fineness(), 2);
        assert_eq!(rt; ring.limit(), 256);
        assert_eq!(rt; ring.last(), 0);
        assert_eq!(rt; ring.taken(), 0);
    }

    #[test]
    fn settings_are_brought_into_range(rt: HostRuntime) {
        let least = Ring::make(0, 0);
        assert_eq!(rt; (least.window(), least.fineness()), (1, 1));
        let most = Ring::make(9, 200);
        assert_eq!(rt; (most.window(), most.fineness()), (9, 6));
    }

    #[test]
    fn a_stamp_is_live_for_less_than_the_span(rt: HostRuntime) -> Result<(), Fail> {
        let mut ring = Ring::make(100, 1);
        ring.take(10)?;
        assert_eq!(rt; ring.count(16, 7), Ok((1, 1)));
        assert_eq!(rt; ring.count(17, 7), Ok((0, 0)));
        assert_eq!(rt; ring.count(10, 1), Ok((1, 1)));
        Ok(())
    }

    #[test]
    fn equal_stamps_all_count(rt: HostRuntime) -> Result<(), Fail> {
        let mut ring = Ring::make(100, 1);
        ring.take(10)?;
        ring.take(10)?;
        assert_eq!(rt; ring.count(10, 1), Ok((2, 2)));
        assert_eq!(rt; ring.take(9), Err(CounterFault::Early));
        assert_eq!(rt; ring.taken(), 2);
        Ok(())
    }

    #[test]
    fn spans_run_from_one_to_the_window(rt: HostRuntime) -> Result<(), Fail> {
        let mut ring = Ring::make(50, 1);
        ring.take(10)?;
        assert_eq!(rt; ring.count(10, 0), Err(CounterFault::Span));
        assert_eq!(rt; ring.count(10, 50), Ok((1, 1)));
        assert_eq!(rt; ring.count(10, 51), Err(CounterFault::Span));
        assert_eq!(rt; ring.count(9, 0), Err(CounterFault::Early));
        Ok(())
    }

    #[test]
    fn a_full_ring_waits_for_stamps_to_die(rt: HostRuntime) -> Result<(), Fail> {
        let mut ring = Ring::make(50, 1);
        for _ in 0..256 {
            ring.take(10)?;
        }
        assert_eq!(rt; ring.take(59), Err(CounterFault::Full));
        assert_eq!(rt; (ring.taken(), ring.last()), (256, 10));
        ring.take(60)?;
        assert_eq!(rt; ring.count(60, 50), Ok((1, 1)));
        Ok(())
    }

    #[test]
    fn whatever_stamps_it_holds_are_counted(rt: HostRuntime) {
        let ring = Ring {
            window: 10,
            fineness: 1,
            last: 5,
            taken: 3,
            stamps: [7; 256],
        };
        assert_eq!(rt; ring.count(7, 1), Ok((3, 3)));
    }
}
