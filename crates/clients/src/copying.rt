// Copying within any home.
ghost use Rattle.std.specs.Prelude.{◌≡◌};
ghost use Rattle.interfaces.specs.Faults.{answer};
ghost use Rattle.clients.specs.Copies.{copy_fault, after_copy};

use interfaces::fault::Fault;
use interfaces::home::Home;

// Copies one record onto another, or refuses and changes nothing.
pub fn copy_record<H: Home>(home: &mut H, from: u16, to: u16) -> Result<(), Fault>
    ensures said { result ≡ answer (copy_fault (H.Home.meaning home.old) from to) }
    ensures left { H.Home.meaning home.new ≡ after_copy (H.Home.meaning home.old) from to }
{
    let mut body = [0; 16];
    home.read(from, &mut body)?;
    home.write(to, body)
}
