// A layer that lets so many more writes through to the home below.
ghost use Rattle.std.specs.Prelude.{◌≡◌};
ghost use Rattle.interfaces.specs.Faults.{answer};
ghost use Rattle.interfaces.specs.Homes.{read_fault, place_after, write_fault, after_write};
ghost use Rattle.homes.specs.Allowances.{allowing, allowing_sound, writes_after};

use interfaces::fault::{Cause, Fault, passed_up};
use interfaces::home::Home;

#[derive(Drop)]
pub struct Allowance<H> {
    below: H,
    writes_left: u32,
}

impl<H: Home> Allowance<H> {
    pub fn new(below: H, writes: u32) -> Allowance<H>
        ensures means { allowing result.writes_left (H.Home.meaning result.below) ≡ allowing writes (H.Home.meaning below) }
        ensures held { result.below ≡ below }
        ensures left { result.writes_left ≡ writes }
    {
        Allowance {
            below,
            writes_left: writes,
        }
    }

    // How many more writes it lets through.
    pub fn writes_left(&self) -> u32
        ensures { result ≡ self.now.writes_left }
    {
        self.writes_left
    }
}

impl<H: Home> Home for Allowance<H> {
    ghost meaning = { λ s. allowing s.writes_left (H.Home.meaning s.below) };

    ghost sound = { λ s. allowing_sound s.writes_left (H.Home.meaning s.below) (H.Home.sound s.below) };

    fn count(&self) -> u16 {
        self.below.count()
    }

    // The trait's clauses stand here again, since a method with clauses of its own has no others.
    fn read(&mut self, number: u16, place: &mut [u8; 16]) -> Result<(), Fault>
        ensures said { result ≡ answer (read_fault (⟦<Self as Home>⟧.meaning self.old) number) }
        ensures got { place.new ≡ place_after (⟦<Self as Home>⟧.meaning self.old) number place.old }
        ensures left { ⟦<Self as Home>⟧.meaning self.new ≡ ⟦<Self as Home>⟧.meaning self.old }
        ensures writes { self.new.writes_left ≡ self.old.writes_left }
    {
        self.inside(number)?;
        passed_up(self.below.read(number, place))
    }

    fn write(&mut self, number: u16, body: [u8; 16]) -> Result<(), Fault>
        ensures said { result ≡ answer (write_fault (⟦<Self as Home>⟧.meaning self.old) number) }
        ensures left { ⟦<Self as Home>⟧.meaning self.new ≡ after_write (⟦<Self as Home>⟧.meaning self.old) number body }
        ensures writes { self.new.writes_left ≡ writes_after result self.old.writes_left }
    {
        self.inside(number)?;
        let left = self
            .writes_left
            .checked_sub(1)
            .ok_or(Fault::new(Cause::AllowanceSpent, number))?;
        passed_up(self.below.write(number, body))?;
        self.writes_left = left;
        Ok(())
    }
}
