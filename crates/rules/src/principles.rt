//! The price by principles: of the limits with executable volume V, those with the smallest unbalance.
ghost use Rattle.std.specs.Prelude.{◌≡◌, suc};
ghost use Rattle.ticks.specs.Seen.{demand_of, supply_of, greatest_volume};
ghost use Rattle.ticks.specs.Ticks.{highest_tick};
ghost use Rattle.rules.specs.Tests.{candidates, kept_of, leaning};
ghost use Rattle.curves.specs.Sums.{highest};
ghost use Rattle.rules.specs.Prices.{unbalance, least_unbalance, choice, principles_price};

use ticks::figures::Figures;
use ticks::search::{TickTest, highest_tick, lowest_tick};
use ticks::tick::{HIGHEST, Tick};

/// A tick is a limit of a standing order, and the executable volume there is V.
#[derive(Clone, Copy)]
struct Candidate<'a> {
    figures: &'a Figures,
}

impl<'a> TickTest for Candidate<'a> {
    ghost passing = { λ t. candidates t.figures.now };

    fn passes(&self, tick: Tick) -> bool {
        let figures = self.figures;
        let (demand, supply) = (figures.demand_at(tick), figures.supply_at(tick));
        demand.min(supply) == figures.volume()
            && (demand != figures.demand_above(tick) || supply != figures.supply_below(tick))
    }
}

/// A candidate is kept: its unbalance is the smallest.
#[derive(Clone, Copy)]
struct Kept<'a> {
    candidate: Candidate<'a>,
    least: u64,
}

impl<'a> TickTest for Kept<'a> {
    ghost passing = { λ t. kept_of t.candidate.figures.now t.least };

    fn passes(&self, tick: Tick) -> bool {
        self.candidate.passes(tick) && unbalance_at(self.candidate.figures, tick) == self.least
    }
}

// One test for both, by a flag: two structs would differ in one sign.
/// A kept tick has demand above supply, or else supply above demand.
#[derive(Drop)]
struct Leaning<'a> {
    kept: Kept<'a>,
    over: bool,
}

impl<'a> TickTest for Leaning<'a> {
    ghost passing = { λ t. leaning t.over t.kept.candidate.figures.now t.kept.least };

    fn passes(&self, tick: Tick) -> bool {
        let figures = self.kept.candidate.figures;
        let (demand, supply) = (figures.demand_at(tick), figures.supply_at(tick));
        let leans = if self.over {
            supply < demand
        } else {
            demand < supply
        };
        self.kept.passes(tick) && leans
    }
}

/// Demand less supply, unsigned.
fn unbalance_at(figures: &Figures, tick: Tick) -> u64
    ensures { result ≡ unbalance (demand_of figures.now) (supply_of figures.now) tick.value }
{
    figures.demand_at(tick).abs_diff(figures.supply_at(tick))
}

/// The smallest unbalance of all candidates.
#[tactic(auto, using(crate::specs::Choosing::smallest_none, crate::specs::Choosing::smallest_more))]
fn least_unbalance(candidate: Candidate) -> u64
    ensures { result ≡ least_unbalance highest_tick (greatest_volume candidate.entry.figures.now) (demand_of candidate.entry.figures.now) (supply_of candidate.entry.figures.now) }
{
    let figures = candidate.figures;
    let all_demand = figures.demand_at(Tick { value: 0 });
    let all_supply = figures.supply_at(Tick { value: HIGHEST });
    let mut least = all_demand.max(all_supply);
    // A loop over all ticks, since it starts from a value for the case that there is no candidate.
    for value in 0..=HIGHEST {
        let tick = Tick { value };
        if candidate.passes(tick) {
            least = least.min(unbalance_at(figures, tick));
        }
    }
    least
}

/// The highest tick that is kept, tick 0 where none is.
#[tactic(auto, using(ticks::proofs::Ends::highest_never))]
fn highest_kept(kept: Kept) -> Tick
    ensures { result.value ≡ highest (suc highest_tick) (kept_of kept.entry.candidate.figures.now kept.entry.least) }
{
    highest_tick(&kept).unwrap_or(Tick { value: 0 })
}

/// The choice among the ticks that are kept, tick 0 where none is.
fn chosen(kept: Kept, reference: Tick) -> Tick
    ensures { result.value ≡ choice (suc highest_tick) kept.entry.least (kept_of kept.entry.candidate.figures.now kept.entry.least) (demand_of kept.entry.candidate.figures.now) (supply_of kept.entry.candidate.figures.now) reference.value }
{
    if kept.least == 0 {
        let (Some(low), Some(high)) = (lowest_tick(&kept), highest_tick(&kept)) else {
            return Tick { value: 0 };
        };
        return reference.max(low).min(high);
    }
    // An end of what is kept is looked for only where it is the answer.
    let Some(under) = lowest_tick(&Leaning { kept, over: false }) else {
        return highest_kept(kept);
    };
    let Some(over) = highest_tick(&Leaning { kept, over: true }) else {
        let Some(low) = lowest_tick(&kept) else {
            return Tick { value: 0 };
        };
        return low;
    };
    reference.max(over).min(under)
}

/// The price by principles.
pub fn principles(figures: &Figures, reference: Tick) -> Tick
    ensures { result.value ≡ principles_price highest_tick (demand_of figures.now) (supply_of figures.now) reference.value }
{
    let candidate = Candidate { figures };
    let least = least_unbalance(candidate);
    chosen(Kept { candidate, least }, reference)
}
