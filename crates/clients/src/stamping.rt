// Two stamps in a row from any source.
ghost use Rattle.std.specs.Prelude.{◌≤◌};
ghost use Rattle.interfaces.specs.Stamps.{Drawn};

use interfaces::source::{Source, StampsSpent};

// The stamps of something that began and then ended.
#[derive(Clone, Copy)]
pub struct Span {
    pub began: u64,
    // refused where no stamp is left above the first
    pub ended: Result<u64, StampsSpent>,
}

// A mark, and after it a next, for one tick: the first is not below any stamp given before, and the second is above the first.
pub fn mark_then_next<S: Source>(source: &mut S, tick: u64) -> Span
    ensures began { S.Source.highest source.old ≤ result.began }
    ensures ended { Drawn result.began result.ended (S.Source.highest source.new) }
{
    let began = source.mark(tick);
    let ended = source.next(tick);
    Span { began, ended }
}
