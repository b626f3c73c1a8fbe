//! The rankings of orders that ship: the better limit first, then a tie-break. One text serves buys and sells.
ghost use Rattle.std.specs.Prelude.{◌≡◌, Bool, true, false, length};
ghost use Rattle.ranking.specs.declared.OrderFields.{OrderFields};
ghost use Rattle.ranking.specs.Laws.{RankLaw, better};
ghost use Rattle.ranking.specs.Best.{best_of, place_of, Distinct, Found};
ghost use Rattle.ranking.specs.Orders.{by_limit, earlier, larger, continuous, paired, quote_at};
ghost use Rattle.ranking.specs.Rankings.{by_limit_law};
ghost use Rattle.std.proofs.Common.{rules};

use crate::find::{Places, find_best};
use crate::{OrderFields, OrderQuote, Quote, Ranked, Ranking, is_order_ahead};
use std::cmp::Reverse;
use std::marker::PhantomData;

/// A side of the market.
pub trait Side {
    ghost buys: { Bool };

    /// Whether the limit is better than the other: a buy's higher, a sell's lower.
    fn is_better(limit: u16, other: u16) -> bool
        ensures { result ≡ better buys limit other };
}

/// The buys.
pub struct Buying;

impl Side for Buying {
    ghost buys = { true };

    fn is_better(limit: u16, other: u16) -> bool {
        other < limit
    }
}

/// The sells.
pub struct Selling;

impl Side for Selling {
    ghost buys = { false };

    fn is_better(limit: u16, other: u16) -> bool {
        limit < other
    }
}

/// Which of two orders with equal limits is ahead.
pub trait TieBreak {
    ghost ahead: { OrderFields → OrderFields → Bool };

    /// Whether the order is ahead of the other.
    fn is_ahead(order: &OrderFields, other: &OrderFields) -> bool
        ensures { result ≡ ahead order.now other.now };

    ghost ranks: { RankLaw (λ (o : OrderFields). o.number) ahead };
}

/// An order's quote that is ranked by its limit, then by a tie-break.
#[derive(Drop)]
pub struct LimitQuote<S, T> {
    order: OrderFields,
    side: PhantomData<S>,
    ties: PhantomData<T>,
}

impl<S: Side, T: TieBreak> Ranked for LimitQuote<S, T> {
    ghost mark = { λ x. x.order.number };

    ghost ahead = { λ x y. by_limit S.Side.buys T.TieBreak.ahead x.order y.order };

    ghost ranks = { let law = (by_limit_law T.TieBreak.ahead T.TieBreak.ranks S.Side.buys).ranks in
        record { one = λ x y. law.one x.order y.order; chain = λ x y z. law.chain x.order y.order z.order } };

    // By hand: side and tie-break are parameters, and no derive knows them.
    fn is_ahead(&self, other: &LimitQuote<S, T>) -> bool {
        S::is_better(self.order.limit, other.order.limit)
            || (self.order.limit == other.order.limit && T::is_ahead(&self.order, &other.order))
    }
}

impl<S: Side, T: TieBreak> Quote for LimitQuote<S, T> {
    ghost buys = { S.Side.buys };

    ghost limit = { λ x. x.order.limit };

    ghost left = { λ x. x.order.left };

    ghost limits = { λ x y. (by_limit_law T.TieBreak.ahead T.TieBreak.ranks S.Side.buys).limits x.order y.order };

    fn limit(&self) -> u16 {
        self.order.limit
    }

    fn left(&self) -> u32 {
        self.order.left
    }
}

impl<S: Side, T: TieBreak> OrderQuote for LimitQuote<S, T> {
    ghost made = { λ o. record { order = o; side = record {}; ties = record {} } };

    ghost from = { Prim.search rules };

    fn make(order: &OrderFields) -> LimitQuote<S, T> {
        LimitQuote {
            order: *order,
            side: PhantomData,
            ties: PhantomData,
        }
    }
}

/// Continuous trading: equal limits by the earlier order.
#[derive(Clone, Copy)]
pub struct Continuous;

impl TieBreak for Continuous {
    ghost ahead = { earlier };

    ghost ranks = { Prim.search rules };

    fn is_ahead(order: &OrderFields, other: &OrderFields) -> bool {
        order.number < other.number
    }
}

// Written for each ranking, and not once for every tie-break: a type that breaks ties may rank by quotes of its own.
impl Ranking for Continuous {
    type Buy = LimitQuote<Buying, Continuous>;

    type Sell = LimitQuote<Selling, Continuous>;

    ghost sides = { Prim.search rules };
}

/// Pairing: equal limits by the larger placed quantity, then the earlier order.
#[derive(Clone, Copy)]
pub struct Paired;

impl TieBreak for Paired {
    ghost ahead = { larger };

    ghost ranks = { Prim.search rules };

    fn is_ahead(order: &OrderFields, other: &OrderFields) -> bool {
        (Reverse(order.placed), order.number) < (Reverse(other.placed), other.number)
    }
}

impl Ranking for Paired {
    type Buy = LimitQuote<Buying, Paired>;

    type Sell = LimitQuote<Selling, Paired>;

    ghost sides = { Prim.search rules };
}

// `is_order_ahead` is the one text of these two: each says by name which definition it computes.
/// Whether an order is ahead of another of its side in continuous trading.
pub fn is_continuous_ahead<S: Side>(order: &OrderFields, other: &OrderFields) -> bool
    ensures { result ≡ continuous S.Side.buys order.now other.now }
{
    is_order_ahead::<LimitQuote<S, Continuous>>(order, other)
}

/// Whether an order is ahead of another of its side in pairing.
pub fn is_paired_ahead<S: Side>(order: &OrderFields, other: &OrderFields) -> bool
    ensures { result ≡ paired S.Side.buys order.now other.now }
{
    is_order_ahead::<LimitQuote<S, Paired>>(order, other)
}

/// The orders of one side in a plain array, seen as quotes; one with nothing left does not stand.
#[derive(Drop)]
pub struct Quotes<'a, Q> {
    orders: &'a [OrderFields],
    quotes: PhantomData<Q>,
}

impl<'a, Q: OrderQuote> Places<Q> for Quotes<'a, Q> {
    ghost size = { λ v. length v.orders.now };

    ghost thing = { λ v. quote_at Q.OrderQuote.made v.orders.now };

    fn size(&self) -> usize {
        self.orders.len()
    }

    fn at(&self, place: usize) -> Option<Q> {
        let order = self.orders.get(place).filter(|order| order.left > 0)?;
        Some(Q::make(order))
    }
}

/// The place of the best standing order of one side.
pub fn best_order<Q: OrderQuote + Drop>(orders: &[OrderFields]) -> Option<usize>
    ensures is { result ≡ place_of (best_of Q.Ranked.ahead (length orders.now) (quote_at Q.OrderQuote.made orders.now)) }
    ensures best { Distinct Q.Ranked.mark (length orders.now) (quote_at Q.OrderQuote.made orders.now) → Found Q.Ranked.ahead (length orders.now) (quote_at Q.OrderQuote.made orders.now) result }
{
    find_best::<Q, Quotes<Q>>(&Quotes {
        orders,
        quotes: PhantomData,
    })
}
