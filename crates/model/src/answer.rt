// What accepted calls answer.
ghost use Rattle.std.specs.Prelude.{◌≡◌};
ghost use Rattle.model.specs.Numbers.{state_number, collected_number};

// What a find is on.
#[derive(Clone, Copy, PartialEq, Eq, Debug)]
pub enum State {
    Cleared,
    Present,
    // the section's own draft
    DraftCleared,
    DraftPresent,
}

// The number by which the state is told to the outside.
impl From<State> for u8 {
    ghost from_gives = { λ state number. number ≡ state_number state };

    fn from(state: State) -> u8 {
        state as u8
    }
}

// What a find answers: state and version apart, as both are told to the outside.
#[derive(Clone, Copy, PartialEq, Eq, Debug)]
pub struct Found {
    pub state: State,
    // 0 of a draft
    pub version: u64,
}

// What became of the oldest slot of a log.
#[derive(Clone, Copy, PartialEq, Eq, Debug)]
pub enum Collected {
    // there is none
    Nothing,
    Waits,
    WrittenBack,
    Freed,
}

// The number by which the outcome is told to the outside.
impl From<Collected> for u8 {
    ghost from_gives = { λ outcome number. number ≡ collected_number outcome };

    fn from(outcome: Collected) -> u8 {
        outcome as u8
    }
}
