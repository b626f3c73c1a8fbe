//! A uniform round: one price for all, the greatest volume, best limits first.
#![tactic(auto)]

ghost use Rattle.std.specs.Prelude.{◌≡◌, true, nat_lt};
ghost use Rattle.orders.specs.Held.{session_of};
ghost use Rattle.orders.specs.Settlement.{settled};
ghost use Rattle.steps.specs.Uniform.{uniform_volume, uniform_price, uniform_lines};
ghost use Rattle.uniform.specs.Margins.{grants, posted_lines, all_lines, Ready};

use crate::crossed::is_crossed;
use crate::margin::Margins;
use orders::tables::Tables;
use rules::price::PriceRule;
use rules::sharing::SharingRule;
use ticks::tick::Tick;

mod crossed;
mod margin;
mod side;

/// Clears the standing orders at one price: V to each side, groups of equal limit filled from the best on, the first
/// that does not fit shared by the rule. It answers V and the price, and 0 and 0 where nothing can trade: no rule is
/// consulted then, and no tick looked at.
pub fn clear<P: PriceRule, S: SharingRule>(
    tables: &mut Tables,
    price: &P,
    sharing: &S,
    reference: Tick,
) -> (u64, u16)
    ensures answer { result ≡ (uniform_volume (session_of tables.old).orders, uniform_price P.PriceRule.meaning reference.value (session_of tables.old).orders) }
    ensures after { session_of tables.new ≡ settled (uniform_lines P.PriceRule.meaning S.SharingRule.meaning reference.value (session_of tables.old).orders) (session_of tables.old) }
{
    if !is_crossed(tables.placed()) {
        tables.clear_lines();
        return (0, 0);
    }
    clear_crossed(tables, price, sharing, reference)
}

// Apart from `clear`, which would make room for the figures in rounds without a trade too.
/// The same of orders that can trade.
fn clear_crossed<P: PriceRule, S: SharingRule>(
    tables: &mut Tables,
    price: &P,
    sharing: &S,
    reference: Tick,
) -> (u64, u16)
    requires { nat_lt 0 (uniform_volume (session_of tables.old).orders) ≡ true }
    ensures answer { result ≡ (uniform_volume (session_of tables.old).orders, uniform_price P.PriceRule.meaning reference.value (session_of tables.old).orders) }
    ensures after { session_of tables.new ≡ settled (uniform_lines P.PriceRule.meaning S.SharingRule.meaning reference.value (session_of tables.old).orders) (session_of tables.old) }
{
    tables.clear_lines();
    let figures = tables.figures();
    let tick = price.price(&figures, reference);
    let margins = Margins::new(tables.placed(), &figures, sharing);
    trade_all(tables, margins, tick);
    tables.rank_lines();
    (figures.volume(), tick.value())
}

/// Every order, by number, trades what it is granted at its turn.
fn trade_all(tables: &mut Tables, mut margins: Margins, price: Tick)
    requires { Ready (session_of tables.old) (grants margins (session_of tables.old).orders) }
    ensures { session_of tables.new ≡ posted_lines (session_of tables.old) (all_lines price.value (session_of tables.old) (grants margins (session_of tables.old).orders)) }
{
    let count = tables.placed().len();
    // By place, since each trade changes the table that the next order is read from.
    for place in 0..count {
        let order = tables.placed()[place];
        let quantity = margins.grant(&order);
        // An order that is granted nothing makes no trade.
        let _ = tables.trade(place, quantity, price);
    }
}
