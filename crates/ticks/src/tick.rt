//! Prices and limits.
ghost use Rattle.std.specs.Prelude.{◌≡◌, ◌<◌, ◌≤◌, MatchOption};
ghost use Rattle.curves.specs.Crossing.{half_sum};
ghost use Rattle.ticks.specs.Ticks.{highest_tick};

/// The highest tick.
pub const HIGHEST: u16 = 2000;

/// How many ticks there are.
pub const TICKS: usize = HIGHEST as usize + 1;

/// A price or a limit.
#[derive(Clone, Copy, PartialEq, Eq, PartialOrd, Ord, Debug)]
pub struct Tick {
    pub value: u16,
    ghost within: { value ≤ highest_tick },
}

impl Tick {
    /// The tick of a number, none past the highest.
    // No `TryFrom`: its error would say no more than `None`.
    pub fn new(value: u16) -> Option<Tick>
        ensures { MatchOption result (highest_tick < value) (λ t. t.value ≡ value) }
    {
        if value <= HIGHEST {
            Some(Tick { value })
        } else {
            None
        }
    }

    /// The number of the tick.
    pub fn value(self) -> u16
        ensures is { result ≡ self.value }
        ensures within { result ≤ highest_tick }
    {
        self.value
    }

    /// Half the sum of two ticks; a half tick rounds up.
    pub fn halfway(self, other: Tick) -> Tick
        ensures { result.value ≡ half_sum self.value other.value }
    {
        Tick {
            value: (self.value + other.value + 1) / 2,
        }
    }
}
