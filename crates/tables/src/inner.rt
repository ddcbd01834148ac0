// All tables of a store, and the versions of a record in them.
ghost use Rattle.std.specs.Prelude.{◌≡◌};
ghost use Rattle.model.specs.Versions.{body_in, slot_shows, place_of, foremost as foremost_version};
ghost use Rattle.order.specs.Order.{pick};
ghost use Rattle.order.specs.Kinds.{candidate_test};
ghost use Rattle.order.specs.declared.candidate.Place.TheVariants.{Slot as SlotPlace};
ghost use Rattle.tables.specs.View.{slots_of, oldest_of, masters_of};
ghost use Rattle.tables.specs.Inners.{inner_first, slots_show, IsSeen};

use crate::asked::Asked;
use crate::logs::Logs;
use crate::masters::Masters;
use crate::sections::Sections;
use model::body::Mark;
use model::slot::{Hold, Master};
use order::candidate::{Candidate, Place};
use order::ranked::foremost;
use std::array::from_fn;

// A table each for sections and logs, both by user: one table would be no plainer, since each call would change a user's whole row.
// Clauses name slots and oldest places apart, as `Logs` says.
#[derive(Drop)]
pub struct Inner {
    pub sections: Sections,
    pub logs: Logs,
    pub masters: Masters,
    // no section that is open, or opens later, has a lower opening stamp
    pub watermark: u64,
    // is given to the source with each mark and next
    pub tick: u64,
}

// A version, with what a hold on it is on.
#[derive(Clone, Copy)]
pub struct Seen {
    pub hold: Hold,
    pub version: u64,
    pub mark: Mark,
}

impl Inner {
    // The first hour.
    pub fn new() -> Inner
        ensures { inner_first result }
    {
        Inner {
            sections: Sections::new(),
            logs: Logs::new(),
            masters: Masters::new(),
            watermark: 0,
            tick: 0,
        }
    }

    // The foremost version of a record within a limit, over the eight logs and the master.
    pub fn foremost(&self, number: u8, limit: Option<u64>) -> Option<Candidate>
        ensures { result ≡ foremost_version (slots_of self.now.logs) (oldest_of self.now.logs) (masters_of self.now.masters) number limit }
    {
        let asked = Asked { number, limit };
        let logs: [_; 8] = from_fn(|user| self.foremost_in(user as u8, asked));
        let master = asked.if_within(self.masters.get(number).version, Place::Master);
        foremost(&[foremost(&logs), master])
    }

    // The foremost version in the log of one user.
    fn foremost_in(&self, user: u8, asked: Asked) -> Option<Candidate>
        ensures { result ≡ pick candidate_test (slots_show (slots_of self.now.logs) (oldest_of self.now.logs) asked.number asked.limit user) }
    {
        let ages: [_; 8] = from_fn(|age| self.shown(user, age as u8, asked));
        foremost(&ages)
    }

    // What the slot of an age shows in the log of a user.
    fn shown(&self, user: u8, age: u8, asked: Asked) -> Option<Candidate>
        ensures { result ≡ slot_shows asked.number asked.limit (SlotPlace user age) (slots_of self.now.logs user (place_of (oldest_of self.now.logs user) age)) }
    {
        let slot = self.logs.slot(user, self.logs.place_in(user, age));
        asked.slot_shows(Place::Slot { user, age }, slot)
    }

    // Where a version stands, and its mark; the master where there is none.
    pub fn seen(&self, number: u8, best: Option<Candidate>) -> Seen
        ensures { IsSeen self.now number best result }
    {
        if let Some(candidate) = best
            && let Place::Slot { user, age } = candidate.place
        {
            let place = self.logs.place_in(user, age);
            return Seen {
                hold: Hold::OnSlot { user, place },
                version: candidate.version,
                mark: self.mark_at(user, place),
            };
        }
        self.seen_master(number)
    }

    fn seen_master(&self, number: u8) -> Seen
        ensures { IsSeen self.now number None result }
    {
        let Master { version, mark } = self.masters.get(number);
        Seen {
            hold: Hold::OnMaster { number },
            version,
            mark,
        }
    }

    // The mark of the body at a place of a log.
    pub fn mark_at(&self, user: u8, place: u8) -> Mark
        ensures { result ≡ (body_in (slots_of self.now.logs user place)).mark }
    {
        self.logs
            .slot(user, place)
            .map_or(Mark::Cleared, |slot| slot.body.mark)
    }
}
