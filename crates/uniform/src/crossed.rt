//! Whether anything can trade.
ghost use Rattle.std.specs.Prelude.{◌≡◌, length, nat_lt};
ghost use Rattle.orders.specs.Kept.{Sound};
ghost use Rattle.steps.specs.Uniform.{uniform_volume};

use orders::order::{Life, Order, Side};
use ticks::tick::HIGHEST;

/// Whether the best standing buy limit is at least the best standing sell limit: V is then above 0. One look at each
/// order tells it, so that a round in which nothing can trade costs no more.
pub(crate) fn is_crossed(orders: &[Order]) -> bool
    requires { Sound orders.now (length orders.now) }
    ensures { result ≡ nat_lt 0 (uniform_volume orders.now) }
{
    // A chain that ends in `max` for each side was tried: what `max` answers of the filtered orders was not proved.
    let mut above_buys = 0;
    let mut lowest_sell = HIGHEST + 1;
    for order in orders {
        match (order.life, order.side) {
            (Life::Standing, Side::Buy) => above_buys = above_buys.max(order.limit + 1),
            (Life::Standing, Side::Sell) => lowest_sell = lowest_sell.min(order.limit),
            _ => {}
        }
    }
    lowest_sell < above_buys
}
