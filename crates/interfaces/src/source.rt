// A source of stamps: numbers that order openings, commits and retirements.
ghost use Rattle.std.specs.Prelude.{◌≡◌, ℕ, ◌≤◌};
ghost use Rattle.interfaces.specs.Stamps.{top, Marked, Drawn};

// No stamp is left above the highest.
#[derive(Clone, Copy, PartialEq, Eq, Debug)]
pub struct StampsSpent;

pub trait Source {
    // The highest stamp given so far.
    ghost highest: { Self → ℕ };

    fn highest(&self) -> u64
        ensures { result ≡ highest self.now };

    // A stamp not below the highest, for a tick.
    fn mark(&mut self, tick: u64) -> u64
        ensures { Marked (highest self.old) result (highest self.new) };

    // A stamp above the highest, for a tick.
    fn next(&mut self, tick: u64) -> Result<u64, StampsSpent>
        ensures { Drawn (highest self.old) result (highest self.new) };

    // It is at most 2^64 - 1.
    ghost bounded: { (s : Self) → highest s ≤ top };
}
