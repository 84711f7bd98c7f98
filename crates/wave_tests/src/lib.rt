// What waves count, executed.
#![tactic(auto)]

#[cfg(test)]
use std::process::Abort;
#[cfg(test)]
use std::test::Fail;
use wave::Wave;
#[cfg(test)]
use window::stamps::live_among;
use window::{Counter, CounterFault};

// A wave of fineness 1 over a window of 100 that took 1, 2, .. 7.
pub fn seven() -> Result<Wave, CounterFault> {
    let mut wave = <Wave as Counter>::make(100, 1);
    for t in 1..8 {
        wave.take(t)?;
    }
    Ok(wave)
}

// A wave takes stamp t so many times.
pub fn take_times(wave: &mut Wave, t: u32, times: u32) -> Result<(), CounterFault> {
    for _ in 0..times {
        wave.take(t)?;
    }
    Ok(())
}

// A long run beside the exact list of its stamps, asked after each arrival. The bounds are asked as the
// histogram's tests ask them: what stops a test is known to tests alone, so the two share no function.
#[cfg(test)]
pub fn compare_run(
    rt: &(impl Abort + AllocGlobal),
    window: u32,
    fineness: u8,
    seed: u32,
    pace: u32,
) -> Result<(), Fail> {
    let mut wave = <Wave as Counter>::make(window, fineness);
    let mut stamps = Vec::new(rt.alloc());
    let mut x = seed;
    let mut t: u32 = 0;
    for _ in 0..6000 {
        x = xorshift::next(x);
        t = t.saturating_add(x % 16 / pace.max(1));
        match wave.take(t) {
            Ok(()) => stamps.push(t)?,
            Err(fault) => assert_eq!(rt; fault.number(), 14),
        }
        x = xorshift::next(x);
        let later = t.saturating_add(x % 64);
        let span = 1 + (x >> 8) % wave.window().max(1);
        let (low, high) = wave.count(later, span)?;
        assert!(rt; stamps.len() < 100_000);
        let live = live_among(&stamps, later, span);
        assert!(rt; low <= live && live <= high);
        assert!(rt; u32::from(fineness).wrapping_mul(high.wrapping_sub(low)) <= low);
    }
    Ok(())
}

#[cfg(test)]
mod tests {
    use super::*;
    use wave::ranks::place_of;

    #[test]
    fn worked_cases(rt: HostRuntime) -> Result<(), Fail> {
        let wave = seven()?;
        assert!(rt; wave.is_sound());
        assert_eq!(rt; wave.count(7, 7)?, (6, 7));
        assert_eq!(rt; wave.count(7, 4)?, (4, 5));
        assert_eq!(rt; wave.count(7, 3)?, (3, 3));
        Ok(())
    }

    #[test]
    fn high_leaps(rt: HostRuntime) -> Result<(), Fail> {
        let mut wave = <Wave as Counter>::make(100, 1);
        take_times(&mut wave, 0, 1070)?;
        take_times(&mut wave, 100, 3025)?;
        assert_eq!(rt; wave.count(100, 100)?, (2048, 3071));
        wave.take(100)?;
        assert_eq!(rt; wave.count(100, 100)?, (2049, 4096));
        assert_eq!(rt; wave.take(100).map_err(CounterFault::number), Err(14));
        assert_eq!(rt; wave.taken(), 4096);
        Ok(())
    }

    // A wave that is not sound counts 0 and 0, and a taking changes its last stamp and number only.
    fn check_unsound(rt: &impl Abort, given: Wave) -> Result<(), Fail> {
        let mut wave = given;
        assert!(rt; !wave.is_sound());
        assert_eq!(rt; wave.count(wave.last, wave.window)?, (0, 0));
        wave.take(200)?;
        assert_eq!(rt;
            wave,
            Wave {
                last: 200,
                taken: given.taken.saturating_add(1),
                ..given
            }
        );
        Ok(())
    }

    #[test]
    fn unsound_fineness(rt: HostRuntime) -> Result<(), Fail> {
        check_unsound(
            &rt,
            Wave {
                fineness: 0,
                ..seven()?
            },
        )?;
        check_unsound(
            &rt,
            Wave {
                fineness: 7,
                ..seven()?
            },
        )
    }

    // Every span is above a window of 0, but the wave takes.
    #[test]
    fn unsound_window(rt: HostRuntime) -> Result<(), Fail> {
        let mut wave = Wave {
            window: 0,
            ..seven()?
        };
        assert!(rt; !wave.is_sound());
        assert!(rt; wave.count(7, 1).is_err());
        assert_eq!(rt; wave.take(7), Ok(()));
        assert_eq!(rt; (wave.last, wave.taken), (7, 8));
        Ok(())
    }

    // The stamp of rank 6 is after that of rank 7, which is kept beside it.
    #[test]
    fn unsound_order(rt: HostRuntime) -> Result<(), Fail> {
        let mut wave = seven()?;
        wave.last = 9;
        wave.stamps[place_of(6)] = 8;
        check_unsound(&rt, wave)
    }

    #[test]
    fn unsound_late_stamp(rt: HostRuntime) -> Result<(), Fail> {
        let mut wave = seven()?;
        wave.stamps[place_of(7)] = 8;
        check_unsound(&rt, wave)
    }

    // More than 4,095 ranks are live at the last stamp over the window.
    #[test]
    fn unsound_low(rt: HostRuntime) -> Result<(), Fail> {
        let mut wave = seven()?;
        wave.stamps = [7; 104];
        wave.taken = 6142;
        assert!(rt; wave.is_sound());
        wave.taken = 6143;
        check_unsound(&rt, wave)
    }

    // The stamp of the mark, whose place a later rank has, is never looked at.
    #[test]
    fn mark_has_no_stamp(rt: HostRuntime) -> Result<(), Fail> {
        let mut wave = seven()?;
        wave.stamps[place_of(0)] = 99;
        assert!(rt; wave.is_sound());
        assert_eq!(rt; wave.count(7, 7)?, (6, 7));
        Ok(())
    }

    // Any number taken may lie in a record.
    #[test]
    fn most_taken(rt: HostRuntime) -> Result<(), Fail> {
        let mut wave = Wave {
            window: 1,
            taken: u32::MAX,
            stamps: [0; 104],
            ..seven()?
        };
        assert!(rt; wave.is_sound());
        assert_eq!(rt; wave.count(7, 1)?, (0, 0));
        wave.stamps = [7; 104];
        assert!(rt; !wave.is_sound());
        assert_eq!(rt; wave.take(7).map_err(CounterFault::number), Err(13));
        assert_eq!(rt; wave.take(6).map_err(CounterFault::number), Err(9));
        assert_eq!(rt; (wave.last, wave.taken), (7, u32::MAX));
        Ok(())
    }

    // As the tests of the other counters ask it, each of its own type.
    #[test]
    fn settings_in_range(rt: HostRuntime) -> Result<(), Fail> {
        let least = <Wave as Counter>::make(0, 0);
        assert_eq!(rt; (least.window(), least.fineness()), (1, 1));
        let most = <Wave as Counter>::make(9, 200);
        assert_eq!(rt; (most.window(), most.fineness()), (9, 6));
        assert_eq!(rt; (most.last(), most.taken(), most.limit()), (0, 0, 4095));
        assert_eq!(rt; most.count(0, 9)?, (0, 0));
        Ok(())
    }

    #[test]
    fn run_fine(rt: HostRuntime) -> Result<(), Fail> {
        compare_run(&rt, 300, 6, 1, 4)
    }

    #[test]
    fn run_coarse(rt: HostRuntime) -> Result<(), Fail> {
        compare_run(&rt, 700, 1, 20_021_113, 15)
    }

    #[test]
    fn run_full(rt: HostRuntime) -> Result<(), Fail> {
        compare_run(&rt, u32::MAX, 3, 77, 16)
    }
}
