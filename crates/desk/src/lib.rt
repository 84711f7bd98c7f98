// The desk: where lines come in and replies go out.
#![tactic(auto)]

pub mod seeds;
