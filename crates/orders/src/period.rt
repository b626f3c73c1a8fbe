//! The period of a session.
ghost use Rattle.std.specs.Prelude.{◌≡◌, ◌≤◌, true, false, MatchOption};
ghost use Rattle.orders.specs.Kept.{longest_period, lawful_period};

/// The longest period, in quarter-hours: a month of 31 days.
pub const LONGEST_PERIOD: u16 = 2976;

/// A period of 1 to 2,976 quarter-hours.
#[derive(Clone, Copy, PartialEq, Eq, PartialOrd, Ord, Debug)]
pub struct Period {
    pub quarters: u16,
    ghost some: { 1 ≤ quarters },
    ghost within: { quarters ≤ longest_period },
}

impl Period {
    // No `TryFrom`: its error would say no more than `None`.
    /// The period of so many quarter-hours, none outside 1 to 2,976.
    pub fn new(quarters: u16) -> Option<Period>
        ensures { MatchOption result (lawful_period quarters ≡ false) (λ p. (lawful_period quarters ≡ true) × (p.quarters ≡ quarters)) }
    {
        if (1..=LONGEST_PERIOD).contains(&quarters) {
            Some(Period { quarters })
        } else {
            None
        }
    }
}
