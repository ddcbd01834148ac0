// A source that counts its stamps and ignores the tick.
ghost use Rattle.std.specs.Prelude.{◌≡◌};
ghost use Rattle.interfaces.specs.Stamps.{Marked, Drawn};
ghost use Rattle.sources.specs.Given.{stamp_of, stamp_bounded, counted};

use interfaces::source::{Source, StampsSpent};
use std::marker::Model;

// Its clauses name no tick. As a clock whose last tick is 0 it would promise the same stamps in more words.
#[derive(Drop)]
pub struct Counter {
    highest: u64,
}

// In a clause a counter is the highest stamp that it keeps.
impl Model for Counter {
    ghost use Rattle.std.specs.Prelude.{ℕ};

    ghost Value = { ℕ };

    ghost view = { λ s. s.highest };
}

impl Counter {
    // A counter whose highest stamp so far is `highest`.
    pub fn new(highest: u64) -> Counter
        ensures { result ≡ highest }
    {
        Counter { highest }
    }
}

// The trait's clauses stand here again, since a method with clauses of its own has no others. `stamp_of` stays in them:
// the value of a model is any number, and the bound is owed of each.
impl Source for Counter {
    ghost highest = { stamp_of };

    ghost bounded = { stamp_bounded };

    fn highest(&self) -> u64 {
        self.highest
    }

    fn mark(&mut self, _tick: u64) -> u64
        ensures lawful { Marked (stamp_of self.old) result (stamp_of self.new) }
        ensures exact { result ≡ stamp_of self.old }
    {
        self.highest()
    }

    fn next(&mut self, _tick: u64) -> Result<u64, StampsSpent>
        ensures lawful { Drawn (stamp_of self.old) result (stamp_of self.new) }
        ensures exact { result ≡ counted (stamp_of self.old) }
    {
        self.highest = self.highest.checked_add(1).ok_or(StampsSpent)?;
        Ok(self.highest)
    }
}
