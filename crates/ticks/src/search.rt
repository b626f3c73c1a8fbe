//! The lowest and the highest tick that passes a test.
ghost use Rattle.std.specs.Prelude.{◌≡◌, ℕ, ◌≤◌, Bool, MatchOption};
ghost use Rattle.ticks.specs.Ticks.{NonePasses, IsLowest, IsHighest};

use crate::tick::{HIGHEST, Tick};

/// A test of ticks. A trait with its meaning, and no closure: a public function may not ask that a closure may be called.
pub trait TickTest {
    ghost passing: { Self → ℕ → Bool };

    /// Whether the tick passes.
    fn passes(&self, tick: Tick) -> bool
        ensures { result ≡ passing self.now tick.value };
}

// Loops: after `find` of a range the check leaves the closure and the answer open. Two, since a range and its reverse are two types.
/// The lowest tick that passes.
pub fn lowest_tick<T: TickTest>(test: &T) -> Option<Tick>
    ensures { MatchOption result (NonePasses (T.TickTest.passing test.now)) (λ t. IsLowest (T.TickTest.passing test.now) t.value) }
{
    for value in 0..=HIGHEST {
        let tick = Tick { value };
        if test.passes(tick) {
            return Some(tick);
        }
    }
    None
}

/// The highest tick that passes.
pub fn highest_tick<T: TickTest>(test: &T) -> Option<Tick>
    ensures { MatchOption result (NonePasses (T.TickTest.passing test.now)) (λ t. IsHighest (T.TickTest.passing test.now) t.value) }
{
    for value in (0..=HIGHEST).rev() {
        let tick = Tick { value };
        if test.passes(tick) {
            return Some(tick);
        }
    }
    None
}
