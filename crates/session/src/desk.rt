//! The calls on the plain tables, for every kind of session: apart from `Market`, so that they are proved without its rules and states.
ghost use Rattle.std.specs.Prelude.{◌≡◌, ℕ, ◌≤◌, Result as Answers};
ghost use Rattle.std.specs.List.{list_any};
ghost use Rattle.steps.specs.declared.refusal.Refusal.{Refusal as Why};
ghost use Rattle.ticks.specs.Ticks.{highest_tick};
ghost use Rattle.orders.specs.Orders.{buys};
ghost use Rattle.orders.specs.Settlement.{Session};
ghost use Rattle.orders.specs.Held.{session_of};
ghost use Rattle.session.specs.Entries.{entered, stands_for};
ghost use Rattle.steps.specs.Calls.{is_member, opposes, may_trade, closed, withdraw, status, account_of, line_at};

use orders::order::{
    Account, Ask, Event, Kind, LAST_MEMBER, LEAST_QUANTITY, Life, Line, MOST_QUANTITY, Order, Side,
};
use orders::tables::Tables;
use steps::call::{OrderRef, Status};
use steps::refusal::Refusal;
use ticks::tick::{HIGHEST, Tick};

/// Whether there is such a member.
fn is_member(member: u8) -> bool
    ensures { result ≡ is_member member }
{
    (1..=LAST_MEMBER).contains(&member)
}

/// Whether the member has a standing order on the side.
fn has_standing(placed: &[Order], member: u8, side: Side) -> bool
    ensures { result ≡ list_any (stands_for member (buys side)) placed.now }
{
    // By hand: `any` takes a step more for each order, and a place looks at up to 511 of them here.
    for order in placed {
        if order.life == Life::Standing && order.side == side && order.member == member {
            return true;
        }
    }
    false
}

/// Whether the member has a standing order on the other side.
fn is_opposed(placed: &[Order], ask: Ask) -> bool
    ensures { result ≡ list_any (opposes ask) placed.now }
{
    // With the side by its name, each side has a loop of its own, in which it is a constant.
    match ask.side {
        Side::Buy => has_standing(placed, ask.member, Side::Sell),
        Side::Sell => has_standing(placed, ask.member, Side::Buy),
    }
}

/// Numbers the order of an ask, if every question about it is answered yes. It has no lines yet.
pub(crate) fn enter(tables: &mut Tables, ask: Ask, continuous: bool) -> Result<u16, Refusal>
    ensures { ◌≡◌ {A = Answers ℕ Why × Session} (result, session_of tables.new) (entered continuous ask (session_of tables.old)) }
{
    Refusal::Member.ask(is_member(ask.member))?;
    Refusal::Limit.ask(ask.limit <= HIGHEST)?;
    Refusal::Quantity.ask((LEAST_QUANTITY..=MOST_QUANTITY).contains(&ask.quantity))?;
    Refusal::Kind.ask(ask.kind == Kind::Normal || continuous)?;
    Refusal::OtherSide.ask(!is_opposed(tables.placed(), ask))?;
    // All bounds are asked about above, so `append` answers none only where no number is left.
    let number = tables.append(ask).ok_or(Refusal::Numbers)?;
    tables.clear_lines();
    Ok(number)
}

/// Whether the ask may trade at once: a fill-or-kill order only if opposite quantity within its limit covers it.
pub(crate) fn may_trade(tables: &Tables, ask: Ask) -> bool
    ensures { ask.limit ≤ highest_tick → result ≡ may_trade ask.kind ask (session_of tables.now).orders }
{
    ask.kind != Kind::FillOrKill
        || Tick::new(ask.limit).is_some_and(|limit| ask.quantity
            <= tables.willing(ask.side.opposite(), limit))
}

/// Kills what an order that may not stand has left, and answers how much that was.
pub(crate) fn close(tables: &mut Tables, kind: Kind, place: usize) -> u32
    ensures { ◌≡◌ {A = ℕ × Session} (result, session_of tables.new) (closed kind place (session_of tables.old)) }
{
    match kind {
        Kind::Normal => 0,
        Kind::FillAndKill | Kind::FillOrKill => {
            let left = tables.standing_at(place);
            tables.apply(place, Event::Kill);
            left
        }
    }
}

/// Takes an order out.
pub(crate) fn withdraw(tables: &mut Tables, order: OrderRef) -> Result<u32, Refusal>
    ensures { ◌≡◌ {A = Answers ℕ Why × Session} (result, session_of tables.new) (withdraw order.member order.number (session_of tables.old)) }
{
    let Status { life, left } = status(tables, order)?;
    Refusal::NotStanding.ask(life == Life::Standing)?;
    tables.clear_lines();
    tables.apply(order.number as usize - 1, Event::Withdraw);
    Ok(left)
}

/// Whether a member's order stands, and what it has left.
pub(crate) fn status(tables: &Tables, order: OrderRef) -> Result<Status, Refusal>
    ensures { result ≡ status order.member order.number (session_of tables.now) }
{
    Refusal::Member.ask(is_member(order.member))?;
    let place = (order.number as usize)
        .checked_sub(1)
        .ok_or(Refusal::NotGiven)?;
    let placed = tables.placed().get(place).ok_or(Refusal::NotGiven)?;
    Refusal::NotOwned.ask(placed.member == order.member)?;
    Ok(Status {
        life: placed.life,
        left: placed.left,
    })
}

/// A member's account.
pub(crate) fn account(tables: &Tables, member: u8) -> Result<Account, Refusal>
    ensures { result ≡ account_of member (session_of tables.now) }
{
    Refusal::Member.ask(is_member(member))?;
    Ok(tables.account(member))
}

/// The line at a place, from 0.
pub(crate) fn line(tables: &Tables, index: usize) -> Result<Line, Refusal>
    ensures { result ≡ line_at index (session_of tables.now) }
{
    tables
        .lines()
        .get(index)
        .copied()
        .ok_or(Refusal::NoSuchLine)
}
