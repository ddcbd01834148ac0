// The state of a store beside its home and its source: fixed tables of sections, logs and masters.
#![tactic(auto)]

mod asked;
pub mod hold_number;
pub mod inner;
mod log;
pub mod logs;
pub mod masters;
pub mod patch;
mod section;
pub mod sections;
mod stage;
pub mod user;
