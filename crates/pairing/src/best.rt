//! The best standing order of a side, found by quotes.
ghost use Rattle.std.specs.Prelude.{◌≡◌, length, None, MatchOption};
ghost use Rattle.ranking.specs.Orders.{order_rank};
ghost use Rattle.orders.specs.Orders.{buys};
ghost use Rattle.orders.specs.Kept.{Sound};
ghost use Rattle.steps.specs.Pairing.{fields_of, stands};
ghost use Rattle.pairing.specs.Quotes.{quote_on, best_on};
ghost use Rattle.pairing.specs.Found.{BestOrder};

use orders::order::{Order, Side};
use ranking::find::{Places, find_best};
use ranking::{OrderFields, OrderQuote};
use std::marker::PhantomData;
use ticks::tick::Tick;

/// The best standing order of a side: its place, its number, its limit and what it has left.
#[derive(Clone, Copy)]
pub(crate) struct Best {
    pub(crate) place: usize,
    pub(crate) number: u16,
    pub(crate) limit: Tick,
    pub(crate) left: u32,
}

/// Whether the order stands on the side.
fn stands(side: Side, order: &Order) -> bool
    ensures { result ≡ stands (buys side) order.now }
{
    order.side == side && order.standing() > 0
}

// A function: a `From` could stand only in `orders` or `ranking`, which do not know the definition that it computes.
/// What a ranking reads of the order.
fn fields_of(order: &Order) -> OrderFields
    ensures { result ≡ fields_of order.now }
{
    OrderFields {
        number: order.number,
        limit: order.limit,
        placed: order.placed,
        left: order.standing(),
    }
}

/// The orders that stand on a side, seen as quotes. `ranking::orders::Quotes` cannot serve: its table holds bare fields
/// of one side, and would have to be filled at each search.
#[derive(Drop)]
struct Standing<'a, Q> {
    orders: &'a [Order],
    side: Side,
    quotes: PhantomData<Q>,
}

impl<'a, Q: OrderQuote> Places<Q> for Standing<'a, Q> {
    ghost size = { λ v. length v.orders.now };

    ghost thing = { λ v. quote_on Q.OrderQuote.made (buys v.side) v.orders.now };

    fn size(&self) -> usize {
        self.orders.len()
    }

    fn at(&self, place: usize) -> Option<Q> {
        let order = self.orders.get(place)?;
        // By `if`: after `filter` and `map` the check leaves an answer open.
        if stands(self.side, order) {
            Some(Q::make(&fields_of(order)))
        } else {
            None
        }
    }
}

/// The best standing order of a side.
pub(crate) fn best_standing<Q: OrderQuote + Drop>(orders: &[Order], side: Side) -> Option<Best>
    requires { Sound orders.now (length orders.now) }
    ensures { MatchOption result (best_on (order_rank Q.Ranked.ahead Q.OrderQuote.made) (buys side) orders.now ≡ None) (λ b. BestOrder (order_rank Q.Ranked.ahead Q.OrderQuote.made) (buys side) orders.now b) }
{
    let standing: Standing<Q> = Standing {
        orders,
        side,
        quotes: PhantomData,
    };
    let place = find_best::<Q, Standing<Q>>(&standing)?;
    let order = fields_of(&orders[place]);
    let quote = Q::make(&order);
    Some(Best {
        place,
        number: order.number,
        limit: Tick {
            value: quote.limit(),
        },
        left: quote.left(),
    })
}
