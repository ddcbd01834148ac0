// Loading a home from the lines of a loading list.
#![tactic(auto)]

pub mod reply;
pub mod session;
