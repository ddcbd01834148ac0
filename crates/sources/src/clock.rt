// A source whose stamps follow the tick where it runs ahead of them, and never fall.
ghost use Rattle.std.specs.Prelude.{◌≡◌};
ghost use Rattle.interfaces.specs.Stamps.{Marked, Drawn};
ghost use Rattle.sources.specs.Given.{stamp_of, stamp_bounded, tick_of, clock_mark, clock_next};

use interfaces::source::{Source, StampsSpent};
use std::marker::Model;

#[derive(Drop)]
pub struct Clock {
    highest: u64,
}

// In a clause a clock is the highest stamp that it keeps.
impl Model for Clock {
    ghost use Rattle.std.specs.Prelude.{ℕ};

    ghost Value = { ℕ };

    ghost view = { λ s. s.highest };
}

impl Clock {
    // The latest tick that it knows; a later one counts as it.
    pub const LAST_TICK: u64 = 281_474_976_710_655;

    // A clock whose highest stamp so far is `highest`.
    pub fn new(highest: u64) -> Clock
        ensures { result ≡ highest }
    {
        Clock { highest }
    }

    // The tick as the clock counts it.
    fn tick_of(tick: u64) -> u64
        ensures { result ≡ tick_of tick }
    {
        tick.min(Clock::LAST_TICK)
    }
}

// The trait's clauses stand here again, since a method with clauses of its own has no others. `stamp_of` stays in them:
// the value of a model is any number, and the bound is owed of each.
impl Source for Clock {
    ghost highest = { stamp_of };

    ghost bounded = { stamp_bounded };

    fn highest(&self) -> u64 {
        self.highest
    }

    fn mark(&mut self, tick: u64) -> u64
        ensures lawful { Marked (stamp_of self.old) result (stamp_of self.new) }
        ensures exact { result ≡ clock_mark (stamp_of self.old) tick }
    {
        self.highest = Clock::tick_of(tick).max(self.highest);
        self.highest
    }

    fn next(&mut self, tick: u64) -> Result<u64, StampsSpent>
        ensures lawful { Drawn (stamp_of self.old) result (stamp_of self.new) }
        ensures exact { result ≡ clock_next (stamp_of self.old) tick }
    {
        let above = self.highest.checked_add(1).ok_or(StampsSpent)?;
        self.highest = above.max(Clock::tick_of(tick));
        Ok(self.highest)
    }
}
