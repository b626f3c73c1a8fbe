//! The crossing of demand and supply.
ghost use Rattle.std.specs.Prelude.{◌≡◌};
ghost use Rattle.curves.specs.Crossing.{crosses, crossing_middle};
ghost use Rattle.ticks.specs.Seen.{demand_of, supply_of, greatest_volume};
ghost use Rattle.ticks.specs.Ticks.{highest_tick};

use ticks::figures::Figures;
use ticks::search::{TickTest, highest_tick, lowest_tick};
use ticks::tick::Tick;

/// A tick is in the crossing range.
#[derive(Drop)]
struct InRange<'a> {
    figures: &'a Figures,
}

impl<'a> TickTest for InRange<'a> {
    ghost passing = { λ t. crosses (greatest_volume t.figures.now) (demand_of t.figures.now) (supply_of t.figures.now) };

    fn passes(&self, tick: Tick) -> bool {
        let (figures, volume) = (self.figures, self.figures.volume());
        (figures.demand_above(tick)..=figures.demand_at(tick)).contains(&volume)
            && (figures.supply_below(tick)..=figures.supply_at(tick)).contains(&volume)
    }
}

// A pair: whoever asks for the crossing is told V with it, though the figures keep V too.
/// V and the crossing price: half the sum of the ends of the crossing range, which is never empty.
pub fn crossing(figures: &Figures) -> (u64, Tick)
    ensures volume { result.0 ≡ greatest_volume figures.now }
    ensures tick { result.1.value ≡ crossing_middle highest_tick (demand_of figures.now) (supply_of figures.now) }
{
    let range = InRange { figures };
    let low = lowest_tick(&range).unwrap();
    let high = highest_tick(&range).unwrap();
    (figures.volume(), low.halfway(high))
}
