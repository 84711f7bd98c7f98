// Lists: the keys whose nodes reach a threshold at every level.
#![tactic(auto)]

mod levels;
pub mod lists;

// One key of a list, with its low and high.
#[derive(Clone, Copy, PartialEq, Eq, Debug, Default)]
pub struct Listed {
    pub key: u32,
    pub low: u32,
    pub high: u32,
}
