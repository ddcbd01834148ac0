// A user's section that is open: its opening stamp, and what its four holds are on.
ghost use Rattle.std.specs.Prelude.{◌≡◌};
ghost use Rattle.model.specs.Steps.{fresh};
ghost use Rattle.tables.specs.View.{section_of, holds_of, with_hold};

use crate::hold_number::HoldNumber;
use model::slot::Hold;

#[derive(Clone, Copy)]
pub struct Section {
    pub opening: u64,
    holds: [Hold; 4],
}

impl Section {
    // Opened at a stamp, with empty holds.
    pub fn new(opening: u64) -> Section
        ensures { section_of result ≡ fresh opening }
    {
        Section {
            opening,
            holds: [Hold::Unset; 4],
        }
    }

    pub fn hold(&self, hold: HoldNumber) -> Hold
        ensures { result ≡ holds_of self.now hold.number }
    {
        self.holds[usize::from(hold)]
    }

    // One hold is on something else.
    pub fn set_hold(&mut self, hold: HoldNumber, on: Hold)
        ensures { section_of self.new ≡ with_hold hold.number on (section_of self.old) }
    {
        self.holds[usize::from(hold)] = on;
    }
}
