// A board put together from the parts, with what becomes of some writes.
ghost use Rattle.std.specs.Prelude.{◌≡◌};
ghost use Rattle.homes.specs.Plains.{plain};
ghost use Rattle.homes.specs.Allowances.{allowing};
ghost use Rattle.clients.specs.Writes.{two_of_three};

use crate::writing::write_each;
use homes::allowance::Allowance;
use homes::plain::Plain;
use interfaces::fault::Fault;

// An allowance of two writes over lent bytes.
fn allowance_of_two(bytes: &mut [u8]) -> Allowance<Plain<'_>>
    ensures { allowing result.writes_left (plain result.below.bytes.now) ≡ allowing 2 (plain bytes.old) }
{
    Allowance::new(Plain::new(bytes), 2)
}

// Through an allowance of two, two writes are accepted, and the third is refused.
pub fn third_write_of_two() -> [Result<(), Fault>; 3]
    ensures { result ≡ two_of_three }
{
    let mut bytes = [0; 32];
    let mut home = allowance_of_two(&mut bytes);
    write_each(&mut home, [0, 1, 1], [1; 16])
}
