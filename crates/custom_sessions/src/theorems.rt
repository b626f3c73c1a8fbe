//! What is proved of every list of calls, for the contract's own rules.
ghost use Rattle.std.specs.Prelude.{ℕ};
ghost use Rattle.steps.specs.Ways.{Uniform, Paired, Continuous};
ghost use Rattle.history.specs.Histories.{HistoriesHold};
ghost use Rattle.own_rules.specs.Meanings.{lowest_clearing, smallest_first};
ghost use Rattle.custom_sessions.specs.Meanings.{thirds};

use history::{continuous_sessions_hold, paired_sessions_hold, uniform_sessions_hold};
use own_rules::{LargerLeft, LowestClearing, SmallestFirst, ThirdOfTheWay};

/// Uniform sessions, at the lowest tick that clears, the smallest order first, whatever the reference price.
pub fn uniform_histories_hold()
    ensures { (reference : ℕ) → HistoriesHold (Uniform lowest_clearing smallest_first reference) }
{
    uniform_sessions_hold::<LowestClearing, SmallestFirst>();
}

/// Paired sessions, by what is left, at a third of the way.
pub fn paired_histories_hold()
    ensures { HistoriesHold (Paired thirds) }
{
    paired_sessions_hold::<LargerLeft, ThirdOfTheWay>();
}

/// Continuous sessions, by the same.
pub fn continuous_histories_hold()
    ensures { HistoriesHold (Continuous thirds) }
{
    continuous_sessions_hold::<LargerLeft, ThirdOfTheWay>();
}
