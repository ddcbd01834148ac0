// A home: the memory that keeps the oldest body of each record.
ghost use Rattle.std.specs.Prelude.{◌≡◌, ◌<◌, ◌≤◌, length, MatchResult};
ghost use Rattle.interfaces.specs.Faults.{answer};
ghost use Rattle.interfaces.specs.Homes.{Meaning, WellFormed, outside, read_fault, place_after, write_fault, after_write};

use crate::fault::{Cause, Fault};

pub trait Home {
    // What the home holds, and which writes it takes, now and after any further accepted ones.
    ghost meaning: { Self → Meaning };

    // How many records there are.
    fn count(&self) -> u16
        ensures { result ≡ length (meaning self.now).bodies };

    // Puts the record's sixteen bytes into `place`; from the count on it is refused, and `place` is untouched.
    fn read(&mut self, number: u16, place: &mut [u8; 16]) -> Result<(), Fault>
        ensures said { result ≡ answer (read_fault (meaning self.old) number) }
        ensures got { place.new ≡ place_after (meaning self.old) number place.old }
        ensures left { meaning self.new ≡ meaning self.old };

    // Puts `body` into the record, or refuses and changes nothing.
    fn write(&mut self, number: u16, body: [u8; 16]) -> Result<(), Fault>
        ensures said { result ≡ answer (write_fault (meaning self.old) number) }
        ensures left { meaning self.new ≡ after_write (meaning self.old) number body };

    // Whether the record is below the count: what every home tests first.
    fn inside(&self, number: u16) -> Result<(), Fault>
        ensures { MatchResult result (λ _. number < length (meaning self.now).bodies) (λ fault. (length (meaning self.now).bodies ≤ number) × (fault ≡ outside number)) }
    {
        if number >= self.count() {
            return Err(Fault::new(Cause::Outside, number));
        }
        Ok(())
    }

    // At most 65,535 records of sixteen bytes each.
    ghost sound: { (s : Self) → WellFormed (meaning s) };
}
