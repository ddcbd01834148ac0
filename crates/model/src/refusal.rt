// Why the store refuses a call.
ghost use Rattle.std.specs.Prelude.{◌≡◌};
ghost use Rattle.model.specs.declared.refusal.Refusal.TheVariants.{StampsSpent as NoStamps, HomeRefused as ByHome};
ghost use Rattle.model.specs.Numbers.{refusal_number};

use interfaces::fault::Fault;
use interfaces::source::StampsSpent;

#[derive(Clone, Copy, PartialEq, Eq, Debug)]
pub enum Refusal {
    // the user does not belong to the door that was used
    OtherDoor,
    AlreadyOpen,
    NotOpen,
    // the store has no record of that number
    NotServed,
    // there is no hold of that number, or (take) it was never set
    NoHold,
    // no byte is named, or one behind the sixteenth
    BadRange,
    // another section has a draft of the record
    LockedByOther,
    // the newest version is above the opening stamp
    NewerVersion,
    // all eight slots of the log are used
    LogFull,
    // the section has no draft of the record
    NoDraft,
    // the source has no stamp above its highest
    StampsSpent,
    // the home refuses the write-back
    HomeRefused(Fault),
}

// The number by which the refusal is told to the outside.
impl From<Refusal> for u8 {
    ghost from_gives = { λ refusal number. number ≡ refusal_number refusal };

    fn from(refusal: Refusal) -> u8 {
        match refusal {
            Refusal::OtherDoor => 2,
            Refusal::AlreadyOpen => 3,
            Refusal::NotOpen => 4,
            Refusal::NotServed => 5,
            Refusal::NoHold => 6,
            Refusal::BadRange => 7,
            Refusal::LockedByOther => 8,
            Refusal::NewerVersion => 9,
            Refusal::LogFull => 10,
            Refusal::NoDraft => 11,
            Refusal::StampsSpent => 12,
            Refusal::HomeRefused(_) => 13,
        }
    }
}

impl From<StampsSpent> for Refusal {
    ghost from_gives = { λ _ r. r ≡ NoStamps };

    fn from(_spent: StampsSpent) -> Refusal {
        Self::StampsSpent
    }
}

impl From<Fault> for Refusal {
    ghost from_gives = { λ fault r. r ≡ ByHome fault };

    fn from(fault: Fault) -> Refusal {
        Refusal::HomeRefused(fault)
    }
}
