// Memory images: lent bytes that a home once was, or will be.
ghost use Rattle.std.specs.Prelude.{◌≡◌};
ghost use Rattle.interfaces.specs.Faults.{answer};
ghost use Rattle.interfaces.specs.Homes.{write_fault};
ghost use Rattle.homes.specs.Plains.{plain, bytes_after};

use homes::plain::Plain;
use interfaces::fault::Fault;
use interfaces::home::Home;

// Puts a body into a record of the image, as the plain home would: no other byte is changed.
pub fn patch_image(bytes: &mut [u8], number: u16, body: [u8; 16]) -> Result<(), Fault>
    ensures said { result ≡ answer (write_fault (plain bytes.old) number) }
    ensures bytes { bytes.new ≡ bytes_after bytes.old number body }
{
    let mut home = Plain::new(bytes);
    home.write(number, body)
}
