//! The rules of a contract that brings its own: a price rule, a sharing rule, a pair price and a ranking, each with its law.
#![tactic(auto)]

ghost use Rattle.std.specs.Prelude.{◌≡◌, ◌==◌};
ghost use Rattle.curves.specs.Curves.{executable, curve};
ghost use Rattle.ticks.specs.Seen.{demand_of, supply_of, greatest_volume};
ghost use Rattle.own_rules.specs.Meanings.{lowest_clearing, smallness, smallest_first, third_of_the_way, larger_left};
ghost use Rattle.ticks.specs.Ticks.{highest_tick};
ghost use Rattle.own_rules.specs.Laws.{clears_within, clears_there};
ghost use Rattle.std.proofs.Common.{rules};
ghost use Rattle.rules.specs.Quotas.{claims_law};

use ranking::orders::{Buying, LimitQuote, Selling, TieBreak};
use ranking::{OrderFields, Ranking};
use rules::pair::PairPrice;
use rules::price::PriceRule;
use rules::sharing::SharingRule;
use std::cmp::Reverse;
use ticks::figures::Figures;
use ticks::search::{TickTest, lowest_tick};
use ticks::tick::Tick;
use turns::{ByKey, share_by_key};

pub mod show;

/// The lowest tick at which the greatest volume can trade.
#[derive(Clone, Copy)]
pub struct LowestClearing;

/// The greatest volume can trade at a tick.
#[derive(Drop)]
struct Clears<'a> {
    figures: &'a Figures,
}

impl<'a> TickTest for Clears<'a> {
    ghost passing = { λ t p. (executable (demand_of t.figures.now) (supply_of t.figures.now) p == greatest_volume t.figures.now) };

    fn passes(&self, tick: Tick) -> bool {
        self.figures
            .demand_at(tick)
            .min(self.figures.supply_at(tick))
            == self.figures.volume()
    }
}

impl PriceRule for LowestClearing {
    ghost meaning = { lowest_clearing };

    ghost clears = { λ d s reference wide also curves some. (clears_within highest_tick (curve d) (curve s), clears_there highest_tick (curve d) (curve s)) };

    fn price(&self, figures: &Figures, reference: Tick) -> Tick {
        // Some tick clears: V is the volume of one.
        lowest_tick(&Clears { figures }).unwrap()
    }
}

/// The smallest order of a group first, then the earlier.
#[derive(Clone, Copy)]
pub struct SmallestFirst;

impl ByKey for SmallestFirst {
    ghost key = { λ t q. smallness q };

    fn key(&self, quantity: u32) -> u128 {
        4_294_967_296 - u128::from(quantity)
    }
}

impl SharingRule for SmallestFirst {
    ghost meaning = { smallest_first };

    ghost shares = { claims_law smallness };

    fn share(&self, amount: u64, group: &mut [u32]) {
        share_by_key(self, amount, group);
    }
}

/// A third of the way from the sell's limit to the buy's.
#[derive(Clone, Copy)]
pub struct ThirdOfTheWay;

impl PairPrice for ThirdOfTheWay {
    ghost meaning = { third_of_the_way };

    ghost between = { Prim.search rules };

    fn price(&self, buy: Tick, sell: Tick, buy_is_earlier: bool) -> Tick {
        let apart = buy.value.saturating_sub(sell.value);
        Tick {
            value: sell.value + apart / 3,
        }
    }
}

/// Equal limits by what is left, the larger first, then the earlier order.
#[derive(Clone, Copy)]
pub struct LargerLeft;

impl TieBreak for LargerLeft {
    ghost ahead = { larger_left };

    ghost ranks = { Prim.search rules };

    fn is_ahead(order: &OrderFields, other: &OrderFields) -> bool {
        (Reverse(order.left), order.number) < (Reverse(other.left), other.number)
    }
}

impl Ranking for LargerLeft {
    type Buy = LimitQuote<Buying, LargerLeft>;

    type Sell = LimitQuote<Selling, LargerLeft>;

    ghost sides = { Prim.search rules };
}
