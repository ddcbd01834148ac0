// A user's log: eight slots, used as a ring; a fixed table, since a store takes no heap.
ghost use Rattle.std.specs.Prelude.{◌≡◌, ℕ, ◌&&◌, Bool, Option, None};
ghost use Rattle.model.specs.Tools.{put, on_some, least};
ghost use Rattle.model.specs.Worlds.{blank};
ghost use Rattle.model.specs.Versions.{place_of};
ghost use Rattle.model.specs.Drafts.{draft_age, has_draft, has_drafts, free_age, settled};
ghost use Rattle.model.specs.declared.body.Body.{Body};
ghost use Rattle.model.specs.declared.slot.Slot.{Slot};
ghost use Rattle.tables.specs.Closures.{Computes};
ghost use Rattle.tables.specs.View.{places_of, EachSlot, edited_slot, without_draft, written_within};

use crate::patch::Patch;
use crate::stage::{is_draft, is_draft_of, settled_stage};
use model::body::{Body, Mark};
use model::slot::Slot;

// Clauses name the slots and the oldest place apart: the slots are a function, and the value of a model may have none.
#[derive(Clone, Copy)]
pub struct Log {
    slots: [Option<Slot>; 8],
    // where the oldest slot stands
    first: u8,
}

impl Log {
    // An empty log.
    pub fn new() -> Log
        ensures slots { places_of result ≡ (λ p. None) }
        ensures first { result.first ≡ 0 }
    {
        Log {
            slots: [None; 8],
            first: 0,
        }
    }

    // The place of the slot of an age; the oldest has age 0.
    pub fn place(&self, age: u8) -> u8
        ensures { result ≡ place_of self.now.first age }
    {
        ((u16::from(self.first) + u16::from(age)) % 8) as u8
    }

    // What stands at a place.
    pub fn slot(&self, place: u8) -> Option<Slot>
        ensures { result ≡ places_of self.now place }
    {
        self.slots.get(usize::from(place)).copied().flatten()
    }

    // The slot of an age.
    pub fn aged(&self, age: u8) -> Option<Slot>
        ensures { result ≡ places_of self.now (place_of self.now.first age) }
    {
        self.slot(self.place(age))
    }

    // The first age whose place passes a test.
    fn first_age<F: Fn(Option<Slot>) -> bool>(&self, test: F) -> Option<u8>
        requires { F.IsAlwaysCallable test }
        ensures { (t : ℕ → Bool) → Computes (λ age. F.post test (places_of self.now (place_of self.now.first age))) t → result ≡ least 8 t }
    {
        (0..8).find(|age| test(self.aged(*age)))
    }

    // The age of the draft of a record.
    pub fn draft_age(&self, number: u8) -> Option<u8>
        ensures { result ≡ draft_age (places_of self.now) self.now.first number }
    {
        self.first_age(|slot| slot.is_some_and(|slot| is_draft_of(number, slot)))
    }

    // Whether there is a draft of a record.
    pub fn has_draft(&self, number: u8) -> bool
        ensures { result ≡ has_draft (places_of self.now) self.now.first number }
    {
        self.draft_age(number).is_some()
    }

    // Whether the log is another user's and has a draft of a record.
    pub fn locks(&self, other: bool, number: u8) -> bool
        ensures { result ≡ other && has_draft (places_of self.now) self.now.first number }
    {
        other && self.has_draft(number)
    }

    // Whether there is any draft.
    pub fn has_drafts(&self) -> bool
        ensures { result ≡ has_drafts (places_of self.now) self.now.first }
    {
        self.first_age(|slot| slot.is_some_and(is_draft)).is_some()
    }

    // The first age whose place is not used.
    pub fn free_age(&self) -> Option<u8>
        ensures { result ≡ free_age (places_of self.now) self.now.first }
    {
        self.first_age(|slot| slot.is_none())
    }

    // Another slot, or none, at the place of an age.
    pub fn set(&mut self, age: u8, slot: Option<Slot>)
        ensures slots { places_of self.new ≡ put (places_of self.old) (place_of self.old.first age) slot }
        ensures first { self.new.first ≡ self.old.first }
    {
        self.slots[usize::from(self.place(age))] = slot;
    }

    // The oldest slot leaves the log.
    pub fn free_oldest(&mut self)
        ensures slots { places_of self.new ≡ put (places_of self.old) (place_of self.old.first 0) None }
        ensures first { self.new.first ≡ place_of self.old.first 1 }
    {
        self.set(0, None);
        self.first = self.place(1);
    }

    // Makes of each slot what `change` makes of it. In place: an array's `map` moves the whole log, and takes three to five times as long.
    fn change<F: Fn(Option<Slot>) -> Option<Slot>>(&mut self, change: F)
        requires { F.IsAlwaysCallable change }
        ensures { (f : Option Slot → Option Slot) → Computes (F.post change) f → f None ≡ None → EachSlot f self.old self.new }
    {
        for slot in &mut self.slots {
            *slot = change(*slot);
        }
    }

    // Changes the body of the draft of a record.
    fn edit<F: Fn(Body) -> Body>(&mut self, number: u8, change: F)
        requires { F.IsAlwaysCallable change }
        ensures { (f : Body → Body) → Computes (F.post change) f → EachSlot (on_some (edited_slot number f)) self.old self.new }
    {
        self.change(|slot| match slot {
            Some(draft) if is_draft_of(number, draft) => Some(Slot {
                body: change(draft.body),
                ..draft
            }),
            _ => slot,
        });
    }

    // Writes bytes into the draft of a record.
    pub fn write(&mut self, number: u8, patch: Patch)
        ensures { EachSlot (on_some (edited_slot number (written_within patch.entry.offset patch.entry.bytes.now))) self.old self.new }
    {
        self.edit(number, |body| patch.applied_to(body));
    }

    // Clears the draft of a record.
    pub fn clear(&mut self, number: u8)
        ensures { EachSlot (on_some (edited_slot number (λ b. blank))) self.old self.new }
    {
        self.edit(number, |_| cleared());
    }

    // The drafts leave the log.
    pub fn remove_drafts(&mut self)
        ensures { EachSlot without_draft self.old self.new }
    {
        for slot in &mut self.slots {
            if slot.is_some_and(is_draft) {
                *slot = None;
            }
        }
    }

    // What a commit at a stamp makes of this log: of the drafts of `committing`, which is this log if `own`.
    pub fn settle(&mut self, own: bool, committing: &Log, stamp: u64)
        ensures { EachSlot (on_some (settled (places_of committing.now) committing.now.first own stamp)) self.old self.new }
    {
        self.change(|slot| {
            slot.map(|slot| Slot {
                stage: settled_stage(slot.stage, own, committing.has_draft(slot.number), stamp),
                ..slot
            })
        });
    }
}

// The body of a record that was cleared.
fn cleared() -> Body
    ensures { result ≡ blank }
{
    Body {
        bytes: [0; 16],
        mark: Mark::Cleared,
    }
}
