//! The price of a uniform award.
ghost use Rattle.std.specs.Prelude.{◌≡◌};
ghost use Rattle.curves.specs.Pricing.{PriceMeaning, PriceLaw};
ghost use Rattle.ticks.specs.Ticks.{highest_tick};
ghost use Rattle.rules.specs.Prices.{crossing, principles};
ghost use Rattle.rules.specs.PricesLemmas.{crossing_law, principles_law};

use crate::crossing::crossing;
use crate::principles::principles;
use ticks::figures::Figures;
use ticks::tick::Tick;

/// Picks the tick of a uniform award, from demand and supply at all ticks and the reference price.
pub trait PriceRule {
    ghost meaning: { PriceMeaning };

    /// The price: the rule's meaning of these figures and this reference price.
    fn price(&self, figures: &Figures, reference: Tick) -> Tick
        ensures { result.value ≡ meaning figures.now.demand figures.now.supply reference.value };

    ghost clears: { PriceLaw highest_tick meaning };
}

/// The crossing price.
#[derive(Clone, Copy)]
pub struct Crossing;

impl PriceRule for Crossing {
    ghost meaning = { crossing };

    ghost clears = { crossing_law };

    fn price(&self, figures: &Figures, reference: Tick) -> Tick {
        let (_, tick) = crossing(figures);
        tick
    }
}

/// The price by principles.
#[derive(Clone, Copy)]
pub struct Principles;

impl PriceRule for Principles {
    ghost meaning = { principles };

    ghost clears = { principles_law };

    fn price(&self, figures: &Figures, reference: Tick) -> Tick {
        principles(figures, reference)
    }
}
