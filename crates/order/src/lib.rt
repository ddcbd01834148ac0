// Strict total orders as a trait with laws, the foremost of a row of places, and the two kinds that are ranked.
#![tactic(auto)]

pub mod candidate;
pub mod open_section;
pub mod ranked;
