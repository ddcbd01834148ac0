// A home over lent bytes, which takes every write.
ghost use Rattle.std.specs.Prelude.{◌≡◌, ◌<◌, [], length, slice_index_or};
ghost use Rattle.interfaces.specs.Faults.{answer};
ghost use Rattle.interfaces.specs.Homes.{read_fault, place_after, write_fault, after_write};
ghost use Rattle.homes.specs.Bodies.{bodies_of};
ghost use Rattle.homes.specs.Plains.{plain, plain_sound, bytes_after};

use interfaces::fault::Fault;
use interfaces::home::Home;

// Each call says that its row is still the lender's: a fact of the values before and after it, and a ghost field
// speaks of one value.
#[derive(Drop)]
pub struct Plain<'a> {
    bytes: &'a mut [u8],
}

impl<'a> Plain<'a> {
    pub fn new(bytes: &'a mut [u8]) -> Plain<'a>
        ensures bytes { result.bytes.now ≡ bytes.old }
        ensures lent { result.bytes.ghost_name ≡ bytes.entry.ghost_name }
    {
        Plain { bytes }
    }

    // What a record that is there holds. It is a method of its own since the prover loses what a lent row holds where it is
    // lent on within a method that takes `&mut self`.
    #[tactic(auto, using(crate::proofs::Records::records))]
    fn load(&self, number: u16) -> [u8; 16]
        requires { number < length (bodies_of self.now.bytes.now) }
        ensures { result ≡ slice_index_or (bodies_of self.now.bytes.now) number [] }
    {
        self.bytes.as_chunks::<16>().0[usize::from(number)]
    }
}

#[tactic(auto, using(crate::proofs::Records::records))]
impl<'a> Home for Plain<'a> {
    ghost meaning = { λ s. plain s.bytes.now };

    ghost sound = { λ s. plain_sound s.bytes.now };

    fn count(&self) -> u16 {
        u16::try_from(self.bytes.len() / 16).unwrap_or(u16::MAX)
    }

    // The trait's clauses stand here again, since a method with clauses of its own has no others.
    fn read(&mut self, number: u16, place: &mut [u8; 16]) -> Result<(), Fault>
        ensures said { result ≡ answer (read_fault (⟦<Self as Home>⟧.meaning self.old) number) }
        ensures got { place.new ≡ place_after (⟦<Self as Home>⟧.meaning self.old) number place.old }
        ensures left { ⟦<Self as Home>⟧.meaning self.new ≡ ⟦<Self as Home>⟧.meaning self.old }
        ensures bytes { self.new.bytes.now ≡ self.old.bytes.now }
        ensures lent { self.new.bytes.ghost_name ≡ self.old.bytes.ghost_name }
    {
        self.inside(number)?;
        *place = self.load(number);
        Ok(())
    }

    fn write(&mut self, number: u16, body: [u8; 16]) -> Result<(), Fault>
        ensures said { result ≡ answer (write_fault (⟦<Self as Home>⟧.meaning self.old) number) }
        ensures left { ⟦<Self as Home>⟧.meaning self.new ≡ after_write (⟦<Self as Home>⟧.meaning self.old) number body }
        ensures bytes { self.new.bytes.now ≡ bytes_after self.old.bytes.now number body }
        ensures lent { self.new.bytes.ghost_name ≡ self.old.bytes.ghost_name }
    {
        self.inside(number)?;
        // by place: of what is written through `as_chunks_mut` a proof knows nothing
        let start = usize::from(number) * 16;
        self.bytes[start..start + 16].copy_from_slice(&body);
        Ok(())
    }
}
