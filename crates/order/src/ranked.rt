// What can be ranked, and the one pick of the foremost.
ghost use Rattle.std.specs.Prelude.{◌≡◌, Decides};
ghost use Rattle.order.specs.Order.{Nearer, Picked};

// A strict total order. `Ord` alone does not say that two of which neither is before the other are one and the same.
pub trait Ranked {
    ghost before: { Self → Self → Type 0 };

    fn precedes(&self, other: &Self) -> bool
        ensures { Decides result (before self.now other.now) };

    ghost irreflexive: { (x : Self) → before x x → ⊥ };

    ghost transitive: { (x y z : Self) → before x y → before y z → before x z };

    ghost total: { (x y : Self) → (before x y → ⊥) → (before y x → ⊥) → x ≡ y };
}

// Of the best so far and one more, the one that is kept.
fn nearer<T: Ranked + Copy>(best: T, x: T) -> T
    ensures { Nearer T.before best x result }
{
    if x.precedes(&best) { x } else { best }
}

// The member of the row that nothing in it is before; None where every place is empty.
pub fn foremost<T: Ranked + Copy>(row: &[Option<T>]) -> Option<T>
    ensures { Picked T.before row.now result }
{
    row.iter().copied().flatten().reduce(nearer)
}
