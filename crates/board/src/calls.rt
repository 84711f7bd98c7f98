// The calls on a board after opening, as values, and what they answer.

// One call with its arguments.
#[derive(Clone, Copy)]
pub enum Call<'a> {
    Enrol {
        serial: &'a [u8],
    },
    Play {
        serial: &'a [u8],
        t: u32,
    },
    Ask {
        serial: &'a [u8],
        t: u32,
        v: u32,
    },
    Range {
        first: u32,
        last: u32,
        t: u32,
        v: u32,
    },
    List {
        least: u32,
        t: u32,
        v: u32,
    },
}

// What an accepted call answers.
#[derive(Clone, Copy, PartialEq, Eq, Debug)]
pub enum Answer {
    // the key of the enrolled serial
    Key(u32),
    // how many plays were accepted
    Taken(u32),
    // low and high
    Estimate(u64, u64),
    // how many keys the list names
    Count(u32),
}
