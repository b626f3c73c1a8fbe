//! Continuous sessions: one state, in which an order trades as it is placed.
ghost use Rattle.std.specs.Prelude.{◌≡◌, true};
ghost use Rattle.orders.specs.Settlement.{opening};
ghost use Rattle.orders.specs.Held.{session_of};
ghost use Rattle.pairing.specs.Quotes.{pairs_of};
ghost use Rattle.steps.specs.Ways.{Continuous as ContinuousWay};

use crate::auction::PairedRules;
use crate::market::{Market, ShowsLines, TakesOrders, TakingState};
use crate::opening::Opening;
use orders::tables::Tables;
use pairing::pair;
use ranking::{OrderQuote, Quote, Ranked, Ranking};
use rules::pair::PairPrice;

/// The state of a continuous session: orders trade as they are placed.
#[derive(Clone, Copy)]
pub struct AtOnce;

impl<R: Ranking, P: PairPrice> TakesOrders<PairedRules<R, P>> for AtOnce {
    ghost way = { λ _. ContinuousWay (pairs_of R.Buy.Ranked.ahead R.Buy.OrderQuote.made R.Sell.Ranked.ahead R.Sell.OrderQuote.made P.PairPrice.meaning) };

    ghost at_once = { true };

    fn is_continuous(_rules: &PairedRules<R, P>) -> bool {
        true
    }

    fn trade(rules: &PairedRules<R, P>, tables: &mut Tables) {
        pair::<R, P>(tables, &rules.price);
    }
}

impl TakingState for AtOnce {}

impl ShowsLines for AtOnce {}

/// A continuous session, with the ranking `R` and a pair price.
pub type Continuous<R, P> = Market<PairedRules<R, P>, AtOnce>;

impl<R: Ranking, P: PairPrice> Market<PairedRules<R, P>, AtOnce> {
    /// An empty session at this pair price.
    pub fn open(figures: Opening, price: P) -> Continuous<R, P>
        ensures session { session_of result.tables ≡ opening figures.period.quarters }
        ensures rules { result.rules.price ≡ price }
    {
        Market::opened(figures, PairedRules::new(price), AtOnce)
    }
}
