// Stamp sources: a counter, and a clock that never runs backward.
#![tactic(auto)]

pub mod clock;
pub mod counter;
