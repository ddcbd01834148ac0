// The stages of slots: which are drafts, and what a commit makes of them.
ghost use Rattle.std.specs.Prelude.{◌≡◌, Some};
ghost use Rattle.model.specs.Drafts.{is_draft, draft_of, settled_stage};

use model::slot::{Slot, Stage};

pub fn is_draft(slot: Slot) -> bool
    ensures { result ≡ is_draft slot.stage }
{
    matches!(slot.stage, Stage::Draft)
}

pub fn is_draft_of(number: u8, slot: Slot) -> bool
    ensures { result ≡ draft_of number (Some slot) }
{
    is_draft(slot) && slot.number == number
}

// The stage of a slot after a commit at a stamp; `carried` tells that the commit has a draft of its record.
pub fn settled_stage(stage: Stage, own: bool, carried: bool, stamp: u64) -> Stage
    ensures { result ≡ settled_stage own carried stamp stage }
{
    match stage {
        Stage::Draft if own => Stage::Live { version: stamp },
        Stage::Live { version } if carried => Stage::Retired {
            version,
            retired: stamp,
        },
        _ => stage,
    }
}
