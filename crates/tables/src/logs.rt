// The table of the eight users' logs.
ghost use Rattle.std.specs.Prelude.{◌≡◌, Some, None, ◌==◌, slice_index_or};
ghost use Rattle.model.specs.Tools.{put, on_some};
ghost use Rattle.model.specs.Worlds.{blank, put_slot};
ghost use Rattle.model.specs.Versions.{place_of};
ghost use Rattle.model.specs.Drafts.{draft_age, has_draft, has_drafts, locked_by_other, free_age, edited, undrafted, settled};
ghost use Rattle.tables.specs.View.{slots_of, oldest_of, EachSlotOf, no_log, written_within};

use crate::log::Log;
use crate::patch::Patch;
use crate::user::User;
use model::slot::Slot;

// Clauses name the slots and the places of the oldest apart: both are functions, and the value of a model may have none. A slot is
// named by its user and an age or a place, as the definitions under the laws name it.
#[derive(Drop)]
pub struct Logs {
    all: [Log; 8],
}

impl Logs {
    // All empty.
    pub fn new() -> Logs
        ensures slots { slots_of result ≡ (λ u p. None) }
        ensures oldest { oldest_of result ≡ (λ u. 0) }
    {
        Logs {
            all: [Log::new(); 8],
        }
    }

    // The place of the slot of an age in a log.
    pub fn place(&self, user: User, age: u8) -> u8
        ensures { result ≡ place_of (oldest_of self.now user.number) age }
    {
        self.place_in(user.number(), age)
    }

    // The same of a log by its number; of an empty log behind the last.
    pub fn place_in(&self, user: u8, age: u8) -> u8
        ensures { result ≡ place_of (oldest_of self.now user) age }
    {
        self.all
            .get(usize::from(user))
            .map_or(age % 8, |log| log.place(age))
    }

    // What stands at a place of a log; nothing behind the last log.
    pub fn slot(&self, user: u8, place: u8) -> Option<Slot>
        ensures { result ≡ slots_of self.now user place }
    {
        self.all.get(usize::from(user))?.slot(place)
    }

    // The slot of an age in a log.
    pub fn aged(&self, user: User, age: u8) -> Option<Slot>
        ensures { result ≡ slots_of self.now user.number (place_of (oldest_of self.now user.number) age) }
    {
        self.of(user).aged(age)
    }

    // The age of the user's draft of a record.
    pub fn draft_age(&self, user: User, number: u8) -> Option<u8>
        ensures { result ≡ draft_age (slots_of self.now user.number) (oldest_of self.now user.number) number }
    {
        self.of(user).draft_age(number)
    }

    // Whether the user has a draft of a record.
    pub fn has_draft(&self, user: User, number: u8) -> bool
        ensures { result ≡ has_draft (slots_of self.now user.number) (oldest_of self.now user.number) number }
    {
        self.of(user).has_draft(number)
    }

    // Whether the user has any draft.
    pub fn has_drafts(&self, user: User) -> bool
        ensures { result ≡ has_drafts (slots_of self.now user.number) (oldest_of self.now user.number) }
    {
        self.of(user).has_drafts()
    }

    // Whether another user has a draft of a record.
    pub fn locked_by_other(&self, user: User, number: u8) -> bool
        ensures { result ≡ locked_by_other (slots_of self.now) (oldest_of self.now) user.number number }
    {
        let own = usize::from(user);
        self.all
            .iter()
            .enumerate()
            .any(|(other, log)| log.locks(other != own, number))
    }

    // The first age whose place is not used in the user's log.
    pub fn free_age(&self, user: User) -> Option<u8>
        ensures { result ≡ free_age (slots_of self.now user.number) (oldest_of self.now user.number) }
    {
        self.of(user).free_age()
    }

    // Another slot at the place of an age in the user's log.
    pub fn set(&mut self, user: User, age: u8, slot: Slot)
        ensures slots { slots_of self.new ≡ put_slot (slots_of self.old) user.number (place_of (oldest_of self.old user.number) age) (Some slot) }
        ensures oldest { oldest_of self.new ≡ oldest_of self.old }
    {
        self.all[usize::from(user)].set(age, Some(slot));
    }

    // The oldest slot leaves the user's log.
    pub fn free_oldest(&mut self, user: User)
        ensures slots { slots_of self.new ≡ put_slot (slots_of self.old) user.number (place_of (oldest_of self.old user.number) 0) None }
        ensures oldest { oldest_of self.new ≡ put (oldest_of self.old) user.number (place_of (oldest_of self.old user.number) 1) }
    {
        self.all[usize::from(user)].free_oldest();
    }

    // Writes bytes into the user's draft of a record.
    pub fn write(&mut self, user: User, number: u8, patch: Patch)
        ensures { EachSlotOf (λ o. on_some (edited user.number number (written_within patch.entry.offset patch.entry.bytes.now) o)) self.old self.new }
    {
        self.all[usize::from(user)].write(number, patch);
    }

    // Clears the user's draft of a record.
    pub fn clear(&mut self, user: User, number: u8)
        ensures { EachSlotOf (λ o. on_some (edited user.number number (λ b. blank) o)) self.old self.new }
    {
        self.all[usize::from(user)].clear(number);
    }

    // The user's drafts leave its log.
    pub fn remove_drafts(&mut self, user: User)
        ensures { EachSlotOf (undrafted user.number) self.old self.new }
    {
        self.all[usize::from(user)].remove_drafts();
    }

    // A commit at a stamp: the user's drafts go live, and the live slots of their records retire.
    pub fn settle(&mut self, user: User, stamp: u64)
        ensures { EachSlotOf (λ o. on_some (settled (slots_of self.old user.number) (oldest_of self.old user.number) (o == user.number) stamp)) self.old self.new }
    {
        let own = usize::from(user);
        let committing = *self.of(user);
        for (other, log) in self.all.iter_mut().enumerate() {
            log.settle(other == own, &committing, stamp);
        }
    }

    // The user's log, to read. What changes it indexes the table: of a log that a function lends out as `&mut` no later value is known.
    fn of(&self, user: User) -> &Log
        ensures { result.now ≡ slice_index_or self.now.all user.number no_log }
    {
        &self.all[usize::from(user)]
    }
}
