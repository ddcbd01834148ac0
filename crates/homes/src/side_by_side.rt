// Two homes as one: the first's records, and then the second's.
ghost use Rattle.std.specs.Prelude.{◌≡◌, ◌-◌, ◌≤◌, length, SomeIff};
ghost use Rattle.homes.specs.Sides.{beside, beside_sound};

use interfaces::fault::{Fault, passed_up};
use interfaces::home::Home;

#[derive(Drop)]
pub struct SideBySide<A, B> {
    first: A,
    second: B,
}

impl<A: Home, B: Home> SideBySide<A, B> {
    pub fn new(first: A, second: B) -> SideBySide<A, B>
        ensures means { beside (A.Home.meaning result.first) (B.Home.meaning result.second) ≡ beside (A.Home.meaning first) (B.Home.meaning second) }
        ensures first { result.first ≡ first }
        ensures second { result.second ≡ second }
    {
        SideBySide { first, second }
    }

    // The record's number in the second home, or `None` where the first home has the record.
    fn number_in_second(&self, number: u16) -> Option<u16>
        ensures { let n = length (A.Home.meaning self.now.first).bodies in SomeIff result (n ≤ number) (number - n) }
    {
        number.checked_sub(self.first.count())
    }
}

#[tactic(auto, using(crate::proofs::Joins::joins))]
impl<A: Home, B: Home> Home for SideBySide<A, B> {
    ghost meaning = { λ s. beside (A.Home.meaning s.first) (B.Home.meaning s.second) };

    ghost sound = { λ s. beside_sound (A.Home.meaning s.first) (B.Home.meaning s.second) (A.Home.sound s.first) (B.Home.sound s.second) };

    fn count(&self) -> u16 {
        self.first.count().saturating_add(self.second.count())
    }

    fn read(&mut self, number: u16, place: &mut [u8; 16]) -> Result<(), Fault> {
        self.inside(number)?;
        // a match: of what a closure changes, the prover keeps nothing
        let answer = match self.number_in_second(number) {
            None => self.first.read(number, place),
            Some(there) => self.second.read(there, place),
        };
        passed_up(answer)
    }

    fn write(&mut self, number: u16, body: [u8; 16]) -> Result<(), Fault> {
        self.inside(number)?;
        // a match: of what a closure changes, the prover keeps nothing
        let answer = match self.number_in_second(number) {
            None => self.first.write(number, body),
            Some(there) => self.second.write(there, body),
        };
        passed_up(answer)
    }
}
