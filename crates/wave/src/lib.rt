// The deterministic wave: each level keeps the newest 2m + 1 of its ranks, with their stamps.
#![tactic(auto)]

mod arrivals;
pub mod counter;
pub mod ranks;
pub mod rules;
pub mod survey;

// A wave as it lies in a cell. A rank kept at any level is kept at its highest one too, so its
// stamp stands once, at a place that its highest level gives. The cell may hold anything, so the
// fields are plain numbers beside all the places.
#[derive(Clone, Copy, PartialEq, Eq, Debug)]
pub struct Wave {
    pub window: u32,
    pub fineness: u8,
    pub last: u32,
    pub taken: u32,
    pub stamps: [u32; 104],
}
