// The number of a hold that was tested: one of the four of a section.
ghost use Rattle.std.specs.Prelude.{◌<◌};

use model::refusal::Refusal;

// A type of its own beside `User`: numbers below four are users, ages and places too, and no holds.
#[derive(Clone, Copy)]
pub struct HoldNumber {
    number: u8,
    ghost low: { number < 4 },
}

// The hold of that number, if a section has it.
impl TryFrom<u8> for HoldNumber {
    ghost use Rattle.tables.specs.Tested.{Numbered};

    type Error = Refusal;

    ghost try_from_gives = { Numbered };

    fn try_from(number: u8) -> Result<HoldNumber, Refusal> {
        if number < 4 {
            Ok(HoldNumber { number })
        } else {
            Err(Refusal::NoHold)
        }
    }
}

// The place of the hold in a table of the four.
impl From<HoldNumber> for usize {
    ghost use Rattle.std.specs.Prelude.{◌≡◌};

    ghost from_gives = { λ hold place. place ≡ hold.number };

    fn from(hold: HoldNumber) -> usize {
        usize::from(hold.number)
    }
}
