// The versions that are asked for: of one record, at or below a stamp if there is a limit.
ghost use Rattle.std.specs.Prelude.{◌≡◌};
ghost use Rattle.model.specs.Versions.{if_within, stage_shows, slot_shows};

use model::slot::{Slot, Stage};
use order::candidate::{Candidate, Place};

#[derive(Clone, Copy)]
pub struct Asked {
    pub number: u8,
    pub limit: Option<u64>,
}

impl Asked {
    // A version and where it stands, if it is within the limit.
    pub fn if_within(self, version: u64, place: Place) -> Option<Candidate>
        ensures { result ≡ if_within self.limit version place }
    {
        self.limit
            .is_none_or(|stamp| version <= stamp)
            .then_some(Candidate { version, place })
    }

    // A live or retired slot is a version, a draft is none.
    fn stage_shows(self, place: Place, stage: Stage) -> Option<Candidate>
        ensures { result ≡ stage_shows self.limit place stage }
    {
        match stage {
            Stage::Draft => None,
            Stage::Live { version } | Stage::Retired { version, .. } => {
                self.if_within(version, place)
            }
        }
    }

    // What a place of a log shows of the record.
    pub fn slot_shows(self, place: Place, slot: Option<Slot>) -> Option<Candidate>
        ensures { result ≡ slot_shows self.number self.limit place slot }
    {
        slot.filter(|slot| slot.number == self.number)
            .and_then(|slot| self.stage_shows(place, slot.stage))
    }
}
