// What may be seen of a record: its master and slots, by their versions.
ghost use Rattle.order.specs.Kinds.{CandidateBefore};
ghost use Rattle.std.proofs.Common.{rules};

use crate::ranked::Ranked;
use std::cmp::Reverse;

// The master first, then the lower user, then the lower age. Its two cases are those of the definitions under the laws.
#[derive(Clone, Copy, PartialEq, Eq, PartialOrd, Ord, Debug)]
pub enum Place {
    Master,
    // the age is 0 for the user's oldest slot
    Slot { user: u8, age: u8 },
}

#[derive(Clone, Copy, PartialEq, Eq, Debug)]
pub struct Candidate {
    pub version: u64,
    pub place: Place,
}

// The higher version first, then the place.
impl Ranked for Candidate {
    ghost before = { CandidateBefore };

    ghost irreflexive = { Prim.search rules };

    ghost transitive = { Prim.search rules };

    ghost total = { Prim.search rules };

    fn precedes(&self, other: &Candidate) -> bool {
        (Reverse(self.version), self.place) < (Reverse(other.version), other.place)
    }
}
