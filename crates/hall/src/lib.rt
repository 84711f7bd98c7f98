// What the programs of a hall share: lines read one by one.
#![tactic(auto)]

pub mod lines;
