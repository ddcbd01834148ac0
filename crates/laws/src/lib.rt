// The laws over whole runs of the store, named one by one. The code runs nothing: each contract is a theorem, proved in proofs/.
#![tactic(auto)]

ghost use Rattle.laws.specs.Laws.{EqualFinds, HeldBytes, NoWriteLost, DraftsOwn, LogsInOrder};
ghost use Rattle.laws.specs.Theorems.{OfEveryRun, OfEveryWorld};

// Two finds of a record answer the same exactly when no commit of it lies between their sections' openings.
pub fn finds_are_equal()
    ensures { OfEveryRun EqualFinds }
{}

// A take gives the bytes of the one commit that answered the held version, or the home's first bytes.
pub fn held_bytes_stay()
    ensures { OfEveryRun HeldBytes }
{}

// Between a section's opening and its commit of a record no other commit of that record lies.
pub fn no_write_is_lost()
    ensures { OfEveryRun NoWriteLost }
{}

// A take from a hold on an own draft gives the bytes of the draft.
pub fn drafts_are_own()
    ensures { OfEveryRun DraftsOwn }
{}

// A log's used slots follow one another from the oldest on, with its drafts last.
pub fn logs_are_rings()
    ensures { OfEveryWorld LogsInOrder }
{}
