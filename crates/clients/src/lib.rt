// Code over any home and any source, proved from what they mean alone; memory images; and a board put together from the parts.
#![tactic(auto)]

pub mod boards;
pub mod copying;
pub mod images;
pub mod stamping;
pub mod writing;
