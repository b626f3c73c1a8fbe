//! The margin of a side: the limit at which the volume runs out, and what each order gets by it.
ghost use Rattle.std.specs.Prelude.{◌≡◌, ◌-◌, ◌≤◌, length};
ghost use Rattle.ticks.specs.Seen.{demand_of, supply_of, greatest_volume};
ghost use Rattle.orders.specs.Orders.{most_orders};
ghost use Rattle.uniform.specs.Margins.{margin_tick, ahead_of, marginal, marginal_group, granted, passed, grant_of, turned, MadeBy};

use crate::side::RoundSide;
use arrayvec::{ArrayVec, IntoIter};
use orders::order::{Life, MOST_ORDERS, Order, Side as OrderSide};
use ranking::orders::{Buying, Continuous, LimitQuote, Selling, Side};
use ranking::{OrderFields, OrderQuote, Quote};
use rules::sharing::SharingRule;
use ticks::figures::Figures;

/// Where the volume of one side runs out: better limits are filled whole, worse ones get nothing, and the orders at
/// the limit itself take the shares of their group in turn.
#[derive(Drop)]
pub(crate) struct Margin {
    limit: u16,
    shares: IntoIter<u32, MOST_ORDERS>,
}

impl Margin {
    /// The margin of a side, its group's shares made by the rule from what the better limits leave of the volume.
    fn new<S: RoundSide, R: SharingRule>(orders: &[Order], figures: &Figures, sharing: &R) -> Margin
        requires { length orders.now ≤ most_orders }
        ensures limit { result.limit ≡ margin_tick S.Side.buys (demand_of figures.now) (supply_of figures.now) }
        ensures shares { result.shares ≡ R.SharingRule.meaning (greatest_volume figures.now - ahead_of S.Side.buys (demand_of figures.now) (supply_of figures.now) result.limit) (marginal_group S.Side.buys result.limit orders.now) }
    {
        let limit = S::margin(figures);
        let amount = figures.volume().saturating_sub(S::ahead(figures, limit));
        let mut shares = gather::<S>(orders, limit.value());
        sharing.share(amount, shares.as_mut_slice());
        Margin {
            limit: limit.value(),
            shares: shares.into_iter(),
        }
    }

    /// What the order of a quote gets; its share at the margin is then gone.
    fn grant<S: Side, Q: Quote>(&mut self, quote: &Q) -> u32
        ensures quantity { result ≡ granted S.Side.buys self.old (Q.Quote.limit quote.now) (Q.Quote.left quote.now) }
        ensures after { self.new ≡ passed (Q.Quote.limit quote.now) self.old }
    {
        let limit = quote.limit();
        if limit == self.limit {
            self.shares.next().unwrap_or(0)
        } else if S::is_better(limit, self.limit) {
            quote.left()
        } else {
            0
        }
    }
}

/// Whether the order stands on a side at a limit.
fn stands_at<S: RoundSide>(order: &Order, limit: u16) -> bool
    ensures { result ≡ marginal S.Side.buys limit order.now }
{
    order.life == Life::Standing && order.side == S::side() && order.limit == limit
}

/// What is left of each order that stands on a side at a limit, earliest first.
fn gather<S: RoundSide>(orders: &[Order], limit: u16) -> ArrayVec<u32, MOST_ORDERS>
    requires { length orders.now ≤ most_orders }
    ensures { result.items ≡ marginal_group S.Side.buys limit orders.now }
{
    let mut group = ArrayVec::new();
    // By push: a chain that is collected answers a `Result`, and there is room for every order.
    for order in orders {
        if stands_at::<S>(order, limit) {
            group.push(order.left);
        }
    }
    group
}

// Filling reads orders as quotes; the tie-break of this one is not read. A function, since both types are other crates'.
/// The quote of an order of a side.
fn quote<S: Side>(order: &Order) -> LimitQuote<S, Continuous>
    ensures limit { result.order.limit ≡ order.now.limit }
    ensures left { result.order.left ≡ order.now.left }
{
    LimitQuote::make(&OrderFields {
        number: order.number,
        limit: order.limit,
        placed: order.placed,
        left: order.left,
    })
}

/// The margins of both sides.
#[derive(Drop)]
pub(crate) struct Margins {
    buys: Margin,
    sells: Margin,
}

impl Margins {
    /// The margins of these orders, where each side gets the volume.
    pub(crate) fn new<R: SharingRule>(orders: &[Order], figures: &Figures, sharing: &R) -> Margins
        requires { length orders.now ≤ most_orders }
        ensures { MadeBy R.SharingRule.meaning (demand_of figures.now) (supply_of figures.now) orders.now result }
    {
        Margins {
            buys: Margin::new::<Buying, R>(orders, figures, sharing),
            sells: Margin::new::<Selling, R>(orders, figures, sharing),
        }
    }

    /// What an order gets at its turn. Only a standing order gets anything.
    pub(crate) fn grant(&mut self, order: &Order) -> u32
        ensures quantity { result ≡ grant_of self.old order.now }
        ensures after { self.new ≡ turned self.old order.now }
    {
        match (order.life, order.side) {
            (Life::Standing, OrderSide::Buy) => self
                .buys
                .grant::<Buying, _>(&quote::<Buying>(order)),
            (Life::Standing, OrderSide::Sell) => self
                .sells
                .grant::<Selling, _>(&quote::<Selling>(order)),
            _ => 0,
        }
    }
}
