// Why a home refuses a call.
ghost use Rattle.std.specs.Prelude.{◌≡◌, Some};
ghost use Rattle.interfaces.specs.Faults.{cause_number, arisen, deeper, passed_up};
ghost use Rattle.interfaces.specs.Messages.{cause_words, fault_words};

use std::fmt;

#[derive(Clone, Copy, PartialEq, Eq, Debug)]
pub enum Cause {
    // the record is not below the home's count
    Outside = 1,
    // an allowance of writes is used up
    AllowanceSpent = 2,
    // a write-once record has had its write
    AlreadyWritten = 3,
}

// The number by which a cause is told to the outside.
impl From<Cause> for u8 {
    ghost from_gives = { λ cause number. number ≡ cause_number cause };

    fn from(cause: Cause) -> u8 {
        cause as u8
    }
}

impl fmt::Display for Cause {
    ghost output = { λ cause. Some (cause_words cause) };

    fn fmt<W: fmt::Write>(&self, f: &mut fmt::Formatter<W>) -> fmt::Result {
        f.write_str(match self {
            Cause::Outside => "outside",
            Cause::AllowanceSpent => "allowance spent",
            Cause::AlreadyWritten => "already written",
        })
    }
}

#[derive(Clone, Copy, PartialEq, Eq, Debug)]
pub struct Fault {
    pub cause: Cause,
    // how many layers lie above the place where it arose: 0 at the top, and 255 for 255 and more
    pub depth: u8,
    // the record's number at the place where it arose
    pub number: u16,
}

impl Fault {
    // A fault that arises here, of the record numbered so here.
    pub fn new(cause: Cause, number: u16) -> Fault
        ensures { result ≡ arisen cause number }
    {
        Fault {
            cause,
            depth: 0,
            number,
        }
    }

    // The same fault as seen from one layer above.
    pub fn deeper(self) -> Fault
        ensures { result ≡ deeper self }
    {
        Fault {
            depth: self.depth.saturating_add(1),
            ..self
        }
    }
}

// What a layer passes up of the answer from below: the fault whole, one deeper.
pub fn passed_up(answer: Result<(), Fault>) -> Result<(), Fault>
    ensures { result ≡ passed_up answer }
{
    answer.map_err(Fault::deeper)
}

impl fmt::Display for Fault {
    ghost output = { λ fault. Some (fault_words fault) };

    fn fmt<W: fmt::Write>(&self, f: &mut fmt::Formatter<W>) -> fmt::Result {
        write!(
            f,
            "{}, at depth {}, record {}",
            self.cause, self.depth, self.number
        )
    }
}
