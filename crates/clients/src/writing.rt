// Writes in a row to any home.
ghost use Rattle.std.specs.Prelude.{◌≡◌};
ghost use Rattle.clients.specs.Writes.{answers_of, after_writes};

use interfaces::fault::Fault;
use interfaces::home::Home;

// Writes a body to each of some records, one after another, whatever becomes of each, and gives the home's answers.
#[tactic(auto, using(crate::proofs::Steps::answers_more, crate::proofs::Steps::writes_more))]
pub fn write_each<H: Home, const N: usize>(
    home: &mut H,
    numbers: [u16; N],
    body: [u8; 16],
) -> [Result<(), Fault>; N]
    ensures said { result ≡ answers_of (H.Home.meaning home.old) numbers.entry body }
    ensures left { H.Home.meaning home.new ≡ after_writes (H.Home.meaning home.old) numbers.entry body }
{
    let mut answers = [Ok(()); N];
    // By place, since the prover keeps nothing of what a closure or a zipped `iter_mut` writes.
    for (k, number) in numbers.iter().enumerate() {
        answers[k] = home.write(*number, body);
    }
    answers
}
