// A board: its calls, each with what it promises, and one call that serves any of them.
#![tactic(auto)]

mod asks;
pub mod calls;
mod checks;
mod enrols;
pub mod faults;
pub mod held;
mod lists;
pub mod openings;
mod opens;
mod plays;
pub mod records;
mod serving;
