// The table of masters: version and mark of each record's body in the home.
ghost use Rattle.std.specs.Prelude.{◌≡◌};
ghost use Rattle.model.specs.Worlds.{first_master, put_master};
ghost use Rattle.tables.specs.View.{masters_of};

use model::body::Mark;
use model::slot::Master;

// A master at the first hour.
const FIRST: Master = Master {
    version: 0,
    mark: Mark::Present,
};

#[derive(Drop)]
pub struct Masters {
    all: [Master; 64],
}

impl Masters {
    // All of version 0, and present.
    #[tactic(auto, using(crate::proofs::FirstHour::first_masters))]
    pub fn new() -> Masters
        ensures { masters_of result ≡ (λ n. first_master) }
    {
        Masters { all: [FIRST; 64] }
    }

    // The master of a record; behind the last as at the first hour.
    pub fn get(&self, number: u8) -> Master
        ensures { result ≡ masters_of self.now number }
    {
        self.all.get(usize::from(number)).copied().unwrap_or(FIRST)
    }

    // Another master of a record; there is none behind the last.
    pub fn set(&mut self, number: u8, master: Master)
        ensures { masters_of self.new ≡ put_master (masters_of self.old) number master }
    {
        let place = usize::from(number);
        // by index: of a write through `get_mut` a proof knows only that the length stays
        if place < self.all.len() {
            self.all[place] = master;
        }
    }
}
