//! What rounds owe their members, and what holds after every list of calls: each function's contract is a theorem, over the
//! definitions that the calls of a session are proved to follow.
#![tactic(auto)]

ghost use Rattle.std.specs.Prelude.{ℕ};
ghost use Rattle.ranking.specs.Orders.{order_rank};
ghost use Rattle.steps.specs.Ways.{Uniform, Paired, Continuous};
ghost use Rattle.history.specs.Fairness.{FairRounds, RoundsAreFair, pairs_of};
ghost use Rattle.history.specs.Histories.{HistoriesHold, EveryHistory};
ghost use Rattle.history.specs.Examples.{Examples};

use ranking::{Ranking, orders_are_ranked};
use rules::pair::PairPrice;
use rules::price::PriceRule;
use rules::sharing::SharingRule;

/// Whatever the rules, if they keep their laws, every round is fair. Every line is of its order and keeps its limit; each
/// side's lines add up to the volume that is answered; buyers pay what sellers get; accounts and orders move by the lines. In
/// a uniform round all lines have the price that is answered, and what they give to the orders that stood is an allotment:
/// none has a greater surplus, nor with equal surplus a greater volume. The lines of a paired round are two for each trade, of
/// one quantity at one price, and it leaves no two orders that could trade.
pub fn rounds_are_fair()
    ensures { RoundsAreFair }
{}

/// Whatever rules price and share, uniform rounds are fair.
pub fn uniform_rounds_are_fair<P: PriceRule, S: SharingRule>()
    ensures { (reference : ℕ) → FairRounds (Uniform P.PriceRule.meaning S.SharingRule.meaning reference) }
{}

// `pairs_of` takes its rules one by one, here and below, since a clause can name a bound's members only so.
/// Whatever rules rank and price pairs, paired rounds are fair.
pub fn paired_rounds_are_fair<R: Ranking, P: PairPrice>()
    ensures { FairRounds (Paired (pairs_of (order_rank R.Buy.Ranked.ahead R.Buy.OrderQuote.made) (order_rank R.Sell.Ranked.ahead R.Sell.OrderQuote.made) P.PairPrice.meaning)) }
{
    orders_are_ranked::<R>();
}

/// Whatever the rules, if they keep their laws, after every list of calls: the award of each uniform round is best; every line
/// kept its order's limit; each member's account is the sum of its lines, and all pay what all get; what an order's place
/// named is what its lines, withdraw and kill took of it and what it has left; in a continuous session no two orders could
/// trade; a fill-or-kill order traded whole or not at all; the lines of each call found room; and a round that comes next is
/// fair.
pub fn every_history_holds()
    ensures { EveryHistory }
{}

/// So it is of uniform sessions, whatever rules price and share.
pub fn uniform_sessions_hold<P: PriceRule, S: SharingRule>()
    ensures { (reference : ℕ) → HistoriesHold (Uniform P.PriceRule.meaning S.SharingRule.meaning reference) }
{
    every_history_holds();
}

/// So it is of paired sessions, whatever rules rank and price pairs.
pub fn paired_sessions_hold<R: Ranking, P: PairPrice>()
    ensures { HistoriesHold (Paired (pairs_of (order_rank R.Buy.Ranked.ahead R.Buy.OrderQuote.made) (order_rank R.Sell.Ranked.ahead R.Sell.OrderQuote.made) P.PairPrice.meaning)) }
{
    orders_are_ranked::<R>();
    every_history_holds();
}

/// So it is of continuous sessions, whatever rules rank and price pairs.
pub fn continuous_sessions_hold<R: Ranking, P: PairPrice>()
    ensures { HistoriesHold (Continuous (pairs_of (order_rank R.Buy.Ranked.ahead R.Buy.OrderQuote.made) (order_rank R.Sell.Ranked.ahead R.Sell.OrderQuote.made) P.PairPrice.meaning)) }
{
    orders_are_ranked::<R>();
    every_history_holds();
}

/// Worked histories.
pub fn examples_hold()
    ensures { Examples }
{}
