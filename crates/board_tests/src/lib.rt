// A board on examples, over each counter: every test is proved to be safe and to end, and then run.
#![tactic(auto)]

#[cfg(test)]
mod halls;
#[cfg(test)]
mod refusals;
#[cfg(test)]
mod turns;

#[cfg(test)]
mod tests {
    use crate::halls::{EMPTY, WORDS};
    use crate::refusals::*;
    use crate::turns::*;
    use board::faults::{Fault, Refusal};
    use histogram::Histogram;
    use ring::Ring;
    use std::test::*;
    use wave::Wave;
    use window::Counter;

    // An example with twelve cells of each counter in turn, and a register of five records. A macro, as no
    // function takes an example that is generic over the counter.
    macro_rules! on_each {
        ($rt:ident, $example:ident) => {{
            $example(&$rt, &mut [Ring::make(1, 1); 12], &mut [EMPTY; 5])?;
            $example(&$rt, &mut [Histogram::make(1, 1); 12], &mut [EMPTY; 5])?;
            $example(&$rt, &mut [Wave::make(1, 1); 12], &mut [EMPTY; 5])
        }};
    }

    #[test]
    fn a_shape_number_out_of_range_is_refused(rt: HostRuntime) -> Result<(), Fail> {
        on_each!(rt, shapes_out_of_range)
    }

    #[test]
    fn sizes_and_words_are_tested_in_turn(rt: HostRuntime) -> Result<(), Fail> {
        let mut cells = [Ring::make(1, 1); 12];
        let mut few_cells = [Ring::make(1, 1); 11];
        let mut register = [EMPTY; 4];
        let mut few_records = [EMPTY; 3];
        let wrong = Err(Fault::Board(Refusal::WrongSize));
        assert_eq!(rt; opening(&WORDS, &mut few_cells, &mut register), wrong);
        assert_eq!(rt; opening(&WORDS[0..11], &mut cells, &mut register), wrong);
        assert_eq!(rt; opening(&WORDS, &mut cells, &mut few_records), wrong);
        let mut words = WORDS;
        words[7] = 2;
        words[9] = 5;
        let wide = Err(Fault::Board(Refusal::WideWord { place: 7 }));
        assert_eq!(rt; opening(&words, &mut cells, &mut register), wide);
        assert_eq!(rt; opening(&WORDS, &mut cells, &mut register), Ok(12));
        lent_too_little(
            &rt,
            &mut cells,
            &mut few_cells,
            &mut register,
            &mut few_records,
        )
    }

    #[test]
    fn a_closed_board_refuses_every_call(rt: HostRuntime) -> Result<(), Fail> {
        on_each!(rt, nothing_before_opening)
    }

    #[test]
    fn serials_are_tested_in_turn(rt: HostRuntime) -> Result<(), Fail> {
        on_each!(rt, serials)
    }

    #[test]
    fn times_spans_and_keys_are_tested_in_turn(rt: HostRuntime) -> Result<(), Fail> {
        on_each!(rt, times)
    }

    #[test]
    fn a_list_without_room_says_how_much_it_needs(rt: HostRuntime) -> Result<(), Fail> {
        on_each!(rt, lists_without_room)
    }

    #[test]
    fn the_first_full_cell_is_named_and_no_cell_changes(rt: HostRuntime) -> Result<(), Fail> {
        full_cells(&rt, 256, &mut [Ring::make(1, 1); 12], &mut [EMPTY; 4])?;
        full_cells(&rt, 4095, &mut [Histogram::make(1, 1); 12], &mut [EMPTY; 4])?;
        full_cells(&rt, 4095, &mut [Wave::make(1, 1); 12], &mut [EMPTY; 4])
    }

    #[test]
    fn a_full_cell_further_on_is_named(rt: HostRuntime) -> Result<(), Fail> {
        on_each!(rt, full_cell_further_on)
    }

    #[test]
    fn every_byte_of_a_serial_counts(rt: HostRuntime) -> Result<(), Fail> {
        on_each!(rt, twins)
    }

    #[test]
    fn a_board_can_be_opened_again(rt: HostRuntime) -> Result<(), Fail> {
        on_each!(rt, opened_again)
    }

    #[test]
    fn a_list_keeps_to_its_places(rt: HostRuntime) -> Result<(), Fail> {
        on_each!(rt, listed)
    }
}
