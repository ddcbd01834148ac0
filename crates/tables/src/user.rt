// A user's number that was tested: one of the eight.
ghost use Rattle.std.specs.Prelude.{◌<◌};

use model::door::Door;
use model::refusal::Refusal;

// A type of its own beside `HoldNumber`, not one type with the bound as its parameter: ages and
// places of a log are below eight too, and are no users.
#[derive(Clone, Copy)]
pub struct User {
    number: u8,
    ghost low: { number < 8 },
}

impl User {
    ghost use Rattle.std.specs.Prelude.{◌≡◌};
    ghost use Rattle.model.specs.Calls.{of_door};
    ghost use Rattle.tables.specs.Tested.{Admitted};

    // The user of that number, if it belongs to the door.
    pub fn of_door(door: Door, number: u8) -> Result<User, Refusal>
        ensures { Admitted (of_door door number) number result }
    {
        match (door, number) {
            (Door::Host, 0..4) | (Door::Firmware, 4..8) => Ok(User { number }),
            _ => Err(Refusal::OtherDoor),
        }
    }

    // The number by which others name the user; a place in a table is made by `usize::from`.
    pub fn number(self) -> u8
        ensures { result ≡ self.number }
    {
        self.number
    }
}

// The user of that number, of either door.
impl TryFrom<u8> for User {
    ghost use Rattle.std.specs.Prelude.{nat_lt};
    ghost use Rattle.tables.specs.Tested.{Admitted};

    type Error = Refusal;

    ghost try_from_gives = { λ number r. Admitted (nat_lt number 8) number r };

    fn try_from(number: u8) -> Result<User, Refusal> {
        if number < 8 {
            Ok(User { number })
        } else {
            Err(Refusal::OtherDoor)
        }
    }
}

// The place of the user in a table of the eight.
impl From<User> for usize {
    ghost use Rattle.std.specs.Prelude.{◌≡◌};

    ghost from_gives = { λ user place. place ≡ user.number };

    fn from(user: User) -> usize {
        usize::from(user.number)
    }
}
