//! The opening figures of a session.
ghost use Rattle.std.specs.Prelude.{◌≡◌, Some, None, MatchResult};
ghost use Rattle.steps.specs.Refusals.{first_no};
ghost use Rattle.steps.specs.Calls.{open_questions};

use orders::period::Period;
use steps::refusal::Refusal;
use ticks::tick::Tick;

/// The figures that a session opens with, always in order: its period and its reference price.
#[derive(Clone, Copy)]
pub struct Opening {
    pub period: Period,
    pub reference: Tick,
}

impl Opening {
    /// The opening figures of a period in quarter-hours and a reference price.
    pub fn new(period: u16, reference: u16) -> Result<Opening, Refusal>
        ensures { MatchResult result (λ o. (first_no (open_questions period reference) ≡ None) × (o.period.quarters ≡ period) × (o.reference.value ≡ reference)) (λ e. first_no (open_questions period reference) ≡ Some e) }
    {
        Ok(Opening {
            period: Period::new(period).ok_or(Refusal::Period)?,
            reference: Tick::new(reference).ok_or(Refusal::Reference)?,
        })
    }
}
