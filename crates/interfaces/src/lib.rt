// What the memory and the stamp source of a reader must show to the store above them.
#![tactic(auto)]

pub mod fault;
pub mod home;
pub mod source;
