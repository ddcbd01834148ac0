// The sections that are open, by the stamp at which each was opened.
ghost use Rattle.order.specs.Kinds.{OpenSectionBefore};
ghost use Rattle.std.proofs.Common.{rules};

use crate::ranked::Ranked;

// The lower stamp first, then the lower user.
#[derive(Clone, Copy, PartialEq, Eq, PartialOrd, Ord, Debug)]
pub struct OpenSection {
    // the stamp at which it was opened
    pub stamp: u64,
    pub user: u8,
}

impl Ranked for OpenSection {
    ghost before = { OpenSectionBefore };

    ghost irreflexive = { Prim.search rules };

    ghost transitive = { Prim.search rules };

    ghost total = { Prim.search rules };

    fn precedes(&self, other: &OpenSection) -> bool {
        self < other
    }
}
