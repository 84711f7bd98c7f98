// Rows, levels and pieces: which cells answer for which keys, and what a node and a key range are estimated to.
#![tactic(auto)]

pub mod estimates;
pub mod faults;
pub mod laws;
pub mod places;
pub mod question;
mod rows;
pub mod shape;
pub mod telling;
pub mod worked;
