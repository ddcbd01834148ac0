// A home with 64 records of its own, each of which takes one write.
ghost use Rattle.std.specs.Prelude.{◌≡◌};
ghost use Rattle.homes.specs.WriteOnces.{once_of, once_new, once_of_sound};

use interfaces::fault::{Cause, Fault};
use interfaces::home::Home;

#[derive(Drop)]
pub struct WriteOnce {
    // what was written to each record, if it has had its write
    records: [Option<[u8; 16]>; 64],
}

impl WriteOnce {
    #[tactic(auto, unfolding(crate::specs::WriteOnces::held, crate::specs::WriteOnces::body_of))]
    pub fn new() -> WriteOnce
        ensures { once_of result.records ≡ once_new }
    {
        WriteOnce {
            records: [None; 64],
        }
    }
}

#[tactic(auto, using(crate::proofs::OneWrites::one_write))]
impl Home for WriteOnce {
    ghost meaning = { λ s. once_of s.records };

    ghost sound = { λ s. once_of_sound s.records };

    fn count(&self) -> u16 {
        self.records.len() as u16
    }

    fn read(&mut self, number: u16, place: &mut [u8; 16]) -> Result<(), Fault> {
        self.inside(number)?;
        *place = self.records[usize::from(number)].unwrap_or([255; 16]);
        Ok(())
    }

    fn write(&mut self, number: u16, body: [u8; 16]) -> Result<(), Fault> {
        self.inside(number)?;
        if self.records[usize::from(number)].is_some() {
            return Err(Fault::new(Cause::AlreadyWritten, number));
        }
        self.records[usize::from(number)] = Some(body);
        Ok(())
    }
}
