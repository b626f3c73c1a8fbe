//! A side of a round: which orders it has, and what it reads of demand and supply.
ghost use Rattle.std.specs.Prelude.{◌≡◌, nat_le};
ghost use Rattle.ticks.specs.Seen.{demand_of, supply_of, greatest_volume};
ghost use Rattle.orders.specs.Orders.{buys};
ghost use Rattle.uniform.specs.Margins.{open_at, margin_tick, ahead_of};

use orders::order::Side as OrderSide;
use ranking::orders::{Buying, Selling, Side};
use ticks::figures::Figures;
use ticks::search::{TickTest, highest_tick, lowest_tick};
use ticks::tick::{HIGHEST, Tick};

/// A side of a round. What differs between buys and sells stands here; all else is written once.
pub(crate) trait RoundSide: Side {
    /// The side of its orders.
    fn side() -> OrderSide
        ensures { buys result ≡ Self.Side.buys };

    /// What is open at better limits.
    fn ahead(figures: &Figures, limit: Tick) -> u64
        ensures { result ≡ ahead_of Self.Side.buys (demand_of figures.now) (supply_of figures.now) limit.value };

    /// The limit at which the volume runs out: the side's best tick with as much open.
    fn margin(figures: &Figures) -> Tick
        ensures { result.value ≡ margin_tick Self.Side.buys (demand_of figures.now) (supply_of figures.now) };
}

/// As much as the volume is open on a side. No closure stands here: a public function would have to require that it
/// may be called.
// One test for both sides, by a value: two structs would differ in one word.
#[derive(Drop)]
struct OpenEnough<'a> {
    figures: &'a Figures,
    side: OrderSide,
}

impl<'a> TickTest for OpenEnough<'a> {
    ghost passing = { λ t p. nat_le (greatest_volume t.figures.now) (open_at (buys t.side) (demand_of t.figures.now) (supply_of t.figures.now) p) };

    fn passes(&self, tick: Tick) -> bool {
        let open = match self.side {
            OrderSide::Buy => self.figures.demand_at(tick),
            OrderSide::Sell => self.figures.supply_at(tick),
        };
        self.figures.volume() <= open
    }
}

impl RoundSide for Buying {
    fn side() -> OrderSide {
        OrderSide::Buy
    }

    fn ahead(figures: &Figures, limit: Tick) -> u64 {
        figures.demand_above(limit)
    }

    fn margin(figures: &Figures) -> Tick {
        highest_tick(&OpenEnough {
            figures,
            side: OrderSide::Buy,
        })
        .unwrap_or(Tick { value: 0 })
    }
}

impl RoundSide for Selling {
    fn side() -> OrderSide {
        OrderSide::Sell
    }

    fn ahead(figures: &Figures, limit: Tick) -> u64 {
        figures.supply_below(limit)
    }

    fn margin(figures: &Figures) -> Tick {
        lowest_tick(&OpenEnough {
            figures,
            side: OrderSide::Sell,
        })
        .unwrap_or(Tick { value: HIGHEST })
    }
}
