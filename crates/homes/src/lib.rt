// Homes: two memories at the bottom, and two layers that are homes over any homes.
#![tactic(auto)]

pub mod allowance;
pub mod plain;
pub mod side_by_side;
pub mod write_once;
