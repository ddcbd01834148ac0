// A layer that takes no write: an example for whoever writes a home.
// Its count and read are the allowance's: a layer for both to stand on would be no plainer for who learns from it.
#![tactic(auto)]

ghost use Rattle.std.specs.Prelude.{◌≡◌};
ghost use Rattle.sealed.specs.Seals.{sealed, sealed_sound};

use interfaces::fault::{Cause, Fault, passed_up};
use interfaces::home::Home;

#[derive(Drop)]
pub struct Sealed<H> {
    below: H,
}

impl<H: Home> Sealed<H> {
    pub fn new(below: H) -> Sealed<H>
        ensures means { sealed (H.Home.meaning result.below) ≡ sealed (H.Home.meaning below) }
        ensures held { result.below ≡ below }
    {
        Sealed { below }
    }
}

impl<H: Home> Home for Sealed<H> {
    ghost meaning = { λ s. sealed (H.Home.meaning s.below) };

    ghost sound = { λ s. sealed_sound (H.Home.meaning s.below) (H.Home.sound s.below) };

    fn count(&self) -> u16 {
        self.below.count()
    }

    fn read(&mut self, number: u16, place: &mut [u8; 16]) -> Result<(), Fault> {
        self.inside(number)?;
        passed_up(self.below.read(number, place))
    }

    fn write(&mut self, number: u16, _body: [u8; 16]) -> Result<(), Fault> {
        self.inside(number)?;
        Err(Fault::new(Cause::AlreadyWritten, number))
    }
}
