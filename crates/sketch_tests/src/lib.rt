// The sketch on examples: each is proved to end, and run.
#![tactic(auto)]

#[cfg(test)]
mod helpers;

#[cfg(test)]
mod tests {
    use crate::helpers::{Asked, compare_run, refusal, sketch_with, tell_each, tell_stamps};
    use histogram::Histogram;
    use ring::Ring;
    use std::test::Fail;
    use window::{Counter, CounterFault};

    #[test]
    fn words_at_set_bits_make_the_column(rt: HostRuntime) {
        let s = sketch_with(2, 1, 1, &[1, 0]);
        assert_eq!(rt; s.column(0, 0, 0), 0);
        assert_eq!(rt; s.column(0, 0, 1), 1);
        assert_eq!(rt; s.column(0, 0, 2), 0);
        assert_eq!(rt; s.column(0, 0, 3), 1);
    }

    #[test]
    fn each_level_and_row_has_its_words(rt: HostRuntime) {
        let s = sketch_with(2, 2, 2, &[1, 2, 3, 1, 2, 0]);
        assert_eq!(rt; s.column(0, 0, 3), 3);
        assert_eq!(rt; s.column(0, 1, 3), 2);
        assert_eq!(rt; s.column(1, 0, 1), 2);
        assert_eq!(rt; s.column(1, 1, 1), 0);
    }

    #[test]
    fn cells_stand_by_level_row_and_column(rt: HostRuntime) {
        let s = sketch_with(2, 2, 1, &[]);
        assert_eq!(rt; s.cell_number(), 12);
        assert_eq!(rt; s.place(0, 0, 1), 1);
        assert_eq!(rt; s.place(0, 1, 0), 2);
        assert_eq!(rt; s.place(1, 0, 0), 4);
        assert_eq!(rt; s.place(2, 1, 1), 11);
    }

    #[test]
    fn the_only_enrolled_key_is_exact(rt: HostRuntime) -> Result<(), Fail> {
        let s = sketch_with(2, 1, 1, &[1, 0]);
        let mut cells = [Ring::make(50, 1); 6];
        tell_stamps(&s, &mut cells, 0, &[10, 10, 30])?;
        let asked = Asked {
            enrolled: 1,
            t: 30,
            v: 50,
        };
        assert_eq!(rt; asked.of(&s, &cells).node(0, 0)?, (3, 3));
        assert_eq!(rt; asked.of(&s, &cells).node(0, 1)?, (0, 0));
        assert_eq!(rt; asked.of(&s, &cells).node(0, 2)?, (0, 3));
        assert_eq!(rt; asked.of(&s, &cells).range(0, 0)?, (3, 3));
        Ok(())
    }

    #[test]
    fn a_span_counts_the_stamps_within_it(rt: HostRuntime) -> Result<(), Fail> {
        let s = sketch_with(2, 1, 1, &[1, 0]);
        let mut cells = [Ring::make(50, 1); 6];
        tell_stamps(&s, &mut cells, 0, &[10, 10, 30])?;
        let within = Asked {
            enrolled: 1,
            t: 30,
            v: 21,
        };
        assert_eq!(rt; within.of(&s, &cells).node(0, 0)?, (3, 3));
        let after = Asked {
            enrolled: 1,
            t: 30,
            v: 20,
        };
        assert_eq!(rt; after.of(&s, &cells).node(0, 0)?, (1, 1));
        Ok(())
    }

    #[test]
    fn keys_that_share_a_column_are_counted_together(rt: HostRuntime) -> Result<(), Fail> {
        let s = sketch_with(2, 1, 1, &[]);
        let mut cells = [Ring::make(50, 1); 6];
        tell_stamps(&s, &mut cells, 0, &[10; 2])?;
        tell_stamps(&s, &mut cells, 1, &[10; 3])?;
        let asked = Asked {
            enrolled: 2,
            t: 10,
            v: 50,
        };
        assert_eq!(rt; asked.of(&s, &cells).node(0, 0)?, (0, 5));
        assert_eq!(rt; asked.of(&s, &cells).node(0, 1)?, (0, 5));
        assert_eq!(rt; asked.of(&s, &cells).range(0, 0)?, (0, 5));
        // one node above covers both, and no other covers an enrolled key
        assert_eq!(rt; asked.of(&s, &cells).node(1, 0)?, (5, 5));
        assert_eq!(rt; asked.of(&s, &cells).range(0, 1)?, (5, 5));
        Ok(())
    }

    #[test]
    fn one_clear_row_is_enough(rt: HostRuntime) -> Result<(), Fail> {
        let s = sketch_with(2, 2, 1, &[0, 0, 1, 0]);
        let mut cells = [Ring::make(50, 1); 12];
        tell_stamps(&s, &mut cells, 0, &[10; 2])?;
        tell_stamps(&s, &mut cells, 1, &[10; 3])?;
        let asked = Asked {
            enrolled: 2,
            t: 10,
            v: 50,
        };
        assert_eq!(rt; asked.of(&s, &cells).node(0, 0)?, (2, 2));
        assert_eq!(rt; asked.of(&s, &cells).node(0, 1)?, (3, 3));
        Ok(())
    }

    #[test]
    fn clear_pieces_add_to_their_range(rt: HostRuntime) -> Result<(), Fail> {
        // in every level each node has a column of its own
        let s = sketch_with(3, 1, 3, &[1, 2, 4, 1, 2, 0, 1, 0, 0]);
        let mut cells = [Ring::make(50, 1); 32];
        tell_each(&s, &mut cells, 10)?;
        let asked = Asked {
            enrolled: 8,
            t: 10,
            v: 50,
        };
        assert_eq!(rt; asked.of(&s, &cells).node(0, 1)?, (2, 2));
        assert_eq!(rt; asked.of(&s, &cells).node(1, 1)?, (7, 7));
        assert_eq!(rt; asked.of(&s, &cells).node(1, 2)?, (11, 11));
        assert_eq!(rt; asked.of(&s, &cells).node(0, 6)?, (7, 7));
        assert_eq!(rt; asked.of(&s, &cells).range(1, 6)?, (27, 27));
        assert_eq!(rt; asked.of(&s, &cells).range(0, 7)?, (36, 36));
        Ok(())
    }

    #[test]
    fn pieces_that_share_add_to_their_range(rt: HostRuntime) -> Result<(), Fail> {
        // in every level all nodes have one column
        let s = sketch_with(3, 1, 0, &[]);
        let mut cells = [Ring::make(50, 1); 4];
        tell_each(&s, &mut cells, 10)?;
        let asked = Asked {
            enrolled: 8,
            t: 10,
            v: 50,
        };
        assert_eq!(rt; asked.of(&s, &cells).node(0, 1)?, (0, 36));
        assert_eq!(rt; asked.of(&s, &cells).node(1, 2)?, (0, 36));
        assert_eq!(rt; asked.of(&s, &cells).range(1, 6)?, (0, 144));
        assert_eq!(rt; asked.of(&s, &cells).range(0, 7)?, (36, 36));
        Ok(())
    }

    #[test]
    fn a_full_cell_refuses_for_all(rt: HostRuntime) -> Result<(), Fail> {
        let s = sketch_with(2, 1, 1, &[1, 0]);
        let mut cells = [Ring::make(50, 1); 6];
        tell_stamps(&s, &mut cells, 1, &[10; 256])?;
        let before = cells;
        let full = Err(refusal(0, 0, 1, 59, CounterFault::Full));
        assert_eq!(rt; s.tell(&mut cells, 1, 59), full);
        assert_eq!(rt; cells, before);
        assert_eq!(rt; s.tell(&mut cells, 1, 60), Ok(()));
        let asked = Asked {
            enrolled: 2,
            t: 60,
            v: 50,
        };
        assert_eq!(rt; asked.of(&s, &cells).node(0, 1)?, (1, 1));
        Ok(())
    }

    #[test]
    fn cells_told_before_a_full_one_are_as_they_were(rt: HostRuntime) -> Result<(), Fail> {
        // keys 0 and 1 have cells of their own in level 0, and one cell in level 1
        let s = sketch_with(2, 1, 1, &[1, 0]);
        let mut cells = [Ring::make(50, 1); 6];
        tell_stamps(&s, &mut cells, 0, &[10; 128])?;
        tell_stamps(&s, &mut cells, 1, &[10; 128])?;
        let before = cells;
        let full = Err(refusal(1, 0, 0, 59, CounterFault::Full));
        assert_eq!(rt; s.tell(&mut cells, 0, 59), full);
        assert_eq!(rt; cells, before);
        let asked = Asked {
            enrolled: 2,
            t: 59,
            v: 50,
        };
        assert_eq!(rt; asked.of(&s, &cells).node(0, 0)?, (128, 128));
        Ok(())
    }

    #[test]
    fn an_earlier_stamp_is_refused(rt: HostRuntime) -> Result<(), Fail> {
        let s = sketch_with(2, 1, 1, &[1, 0]);
        let mut cells = [Ring::make(50, 1); 6];
        tell_stamps(&s, &mut cells, 0, &[10; 1])?;
        let before = cells;
        // key 1 has a cell of its own in level 0, where 9 is not early
        assert_eq!(rt;
            s.tell(&mut cells, 1, 9),
            Err(refusal(1, 0, 0, 9, CounterFault::Early))
        );
        assert_eq!(rt; cells, before);
        Ok(())
    }

    #[test]
    fn a_cell_changed_elsewhere_refuses_a_count(rt: HostRuntime) {
        let s = sketch_with(2, 1, 1, &[1, 0]);
        let mut cells = [Ring::make(50, 1); 6];
        let place = s.place(0, 0, 1);
        assert!(rt; place < cells.len());
        cells[place].last = 11;
        let asked = Asked {
            enrolled: 2,
            t: 10,
            v: 50,
        };
        let question = asked.of(&s, &cells);
        let early = refusal(0, 0, 1, 10, CounterFault::Early);
        assert_eq!(rt; question.node(0, 1), Err(early));
        assert_eq!(rt; question.node(0, 0), Ok((0, 0)));
        assert_eq!(rt; question.range(1, 3), Err(early));
        assert_eq!(rt; question.range(2, 3), Ok((0, 0)));
    }

    #[test]
    fn a_span_above_the_window_is_refused(rt: HostRuntime) {
        let s = sketch_with(2, 1, 1, &[1, 0]);
        let cells = [Ring::make(50, 1); 6];
        let long = Asked {
            enrolled: 2,
            t: 10,
            v: 51,
        };
        assert_eq!(rt;
            long.of(&s, &cells).node(0, 3),
            Err(refusal(0, 0, 1, 10, CounterFault::Span))
        );
        let none = Asked {
            enrolled: 2,
            t: 10,
            v: 0,
        };
        assert_eq!(rt;
            none.of(&s, &cells).range(0, 3),
            Err(refusal(2, 0, 0, 10, CounterFault::Span))
        );
    }

    #[test]
    fn cells_of_another_counter_give_their_estimates(rt: HostRuntime) -> Result<(), Fail> {
        let s = sketch_with(2, 1, 1, &[1, 0]);
        let mut cells = [Histogram::make(50, 1); 6];
        tell_stamps(&s, &mut cells, 0, &[1, 2, 3, 4, 5, 6, 7])?;
        let asked = Asked {
            enrolled: 1,
            t: 7,
            v: 4,
        };
        assert_eq!(rt; asked.of(&s, &cells).node(0, 0)?, (4, 7));
        assert_eq!(rt; asked.of(&s, &cells).node(0, 2)?, (0, 7));
        assert_eq!(rt; asked.of(&s, &cells).range(0, 2)?, (4, 14));
        Ok(())
    }

    #[test]
    fn exact_counts_lie_between_estimates(rt: HostRuntime) -> Result<(), Fail> {
        let exact = sketch_with(3, 1, 3, &[1, 2, 4, 1, 2, 0, 1, 0, 0]);
        let rough = sketch_with(
            3,
            2,
            2,
            &[1, 2, 3, 3, 1, 2, 1, 2, 0, 2, 3, 0, 1, 0, 0, 3, 0, 0],
        );
        let mut exact_cells = [Ring::make(50, 1); 32];
        let mut rough_cells = [Histogram::make(50, 1); 32];
        compare_run(&rt, &exact, &mut exact_cells, &rough, &mut rough_cells)
    }
}
