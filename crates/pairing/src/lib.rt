//! Pairing: the best standing buy trades with the best standing sell while their limits meet.
#![tactic(auto)]

ghost use Rattle.std.specs.Prelude.{◌≡◌, length, None, MatchOption};
ghost use Rattle.orders.specs.Held.{session_of};
ghost use Rattle.orders.specs.Kept.{Sound};
ghost use Rattle.orders.specs.Settlement.{settled};
ghost use Rattle.steps.specs.Pairing.{best_pair, pair_lines, Uncrossed};
ghost use Rattle.steps.specs.Ways.{bought};
ghost use Rattle.pairing.specs.Quotes.{pairs_of};
ghost use Rattle.pairing.specs.Found.{BestPair};
ghost use Rattle.pairing.specs.Examples.{Examples};

use best::best_standing;
use orders::order::{Order, Side};
use orders::tables::Tables;
use ranking::{OrderQuote, Ranked, Ranking};
use rules::pair::PairPrice;
use ticks::tick::Tick;

mod best;

/// A buy and a sell whose limits meet: their places, what they trade and at which price.
#[derive(Clone, Copy)]
struct Meeting {
    buy: usize,
    sell: usize,
    quantity: u32,
    price: Tick,
}

// `pairs_of` takes its rules one by one, since a clause can name a bound's members only so.
/// The best buy and the best sell, where their limits meet.
fn best_pair<R: Ranking, P: PairPrice>(orders: &[Order], price: &P) -> Option<Meeting>
    requires { Sound orders.now (length orders.now) }
    ensures { MatchOption result (best_pair (pairs_of R.Buy.Ranked.ahead R.Buy.OrderQuote.made R.Sell.Ranked.ahead R.Sell.OrderQuote.made P.PairPrice.meaning) orders.now ≡ None) (λ p. BestPair (pairs_of R.Buy.Ranked.ahead R.Buy.OrderQuote.made R.Sell.Ranked.ahead R.Sell.OrderQuote.made P.PairPrice.meaning) orders.now p) }
{
    let buy = best_standing::<R::Buy>(orders, Side::Buy)?;
    let sell = best_standing::<R::Sell>(orders, Side::Sell)?;
    if buy.limit < sell.limit {
        return None;
    }
    Some(Meeting {
        buy: buy.place,
        sell: sell.place,
        quantity: buy.left.min(sell.left),
        price: price.price(buy.limit, sell.limit, buy.number < sell.number),
    })
}

/// Pairs the best standing buy with the best standing sell while their limits meet, and answers what was bought.
/// Both are searched for again after each trade, since a ranking may read what an order has left.
pub fn pair<R: Ranking, P: PairPrice>(tables: &mut Tables, price: &P) -> u64
    ensures after { session_of tables.new ≡ settled (pair_lines (pairs_of R.Buy.Ranked.ahead R.Buy.OrderQuote.made R.Sell.Ranked.ahead R.Sell.OrderQuote.made P.PairPrice.meaning) (session_of tables.old).orders) (session_of tables.old) }
    ensures volume { result ≡ bought (pair_lines (pairs_of R.Buy.Ranked.ahead R.Buy.OrderQuote.made R.Sell.Ranked.ahead R.Sell.OrderQuote.made P.PairPrice.meaning) (session_of tables.old).orders) }
    ensures uncrossed { Uncrossed (session_of tables.new).orders }
{
    tables.clear_lines();
    let mut volume = 0;
    while let Some(pair) = best_pair::<R, P>(tables.placed(), price) {
        // There is room for both lines: every pair so far has ended an order.
        tables.trade(pair.buy, pair.quantity, pair.price);
        tables.trade(pair.sell, pair.quantity, pair.price);
        volume += u64::from(pair.quantity);
    }
    tables.rank_lines();
    volume
}

/// Worked examples of pairing, derived from its definitions.
pub fn examples_hold()
    ensures { Examples }
{}
