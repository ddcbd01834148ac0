// Where versions of records stand, and what a hold is on.
use crate::body::{Body, Mark};

// What a used slot of a log is.
#[derive(Clone, Copy, PartialEq, Eq, Debug)]
pub enum Stage {
    // of an open section, not committed
    Draft,
    // the newest version of its record; its version is its commit stamp
    Live { version: u64 },
    // a newer version followed, or it was written back to the home, at the stamp `retired`
    Retired { version: u64, retired: u64 },
}

#[derive(Clone, Copy, PartialEq, Eq, Debug)]
pub struct Slot {
    // the record that it is of
    pub number: u8,
    pub body: Body,
    pub stage: Stage,
}

// What the store keeps of a record whose bytes are in the home.
#[derive(Clone, Copy, PartialEq, Eq, Debug)]
pub struct Master {
    pub version: u64,
    pub mark: Mark,
}

// What a hold of a section is on: a place, so it shows what stands there now, and no reference, since the tables are fixed. Its three
// cases are those of the definitions under the laws.
#[derive(Clone, Copy, PartialEq, Eq, Debug)]
pub enum Hold {
    Unset,
    OnMaster { number: u8 },
    OnSlot { user: u8, place: u8 },
}
