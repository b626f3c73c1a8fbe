//! Lists of calls, made one after the other under any rules that keep their laws. What a list leaves is the session that the
//! definitions of the calls come to, and its history has all that holds after every list of calls.
#![tactic(auto)]

ghost use Rattle.std.specs.Prelude.{◌≡◌, map};
ghost use Rattle.orders.specs.Held.{session_of};
ghost use Rattle.steps.specs.Calls.{step};
ghost use Rattle.history.specs.Histories.{run, Holds};
ghost use Rattle.replay.specs.Deals.{call_of};

use history::{continuous_sessions_hold, every_history_holds};
use orders::order::Ask;
use ranking::Ranking;
use rules::pair::PairPrice;
use session::auction::{Auction, PairedRules};
use session::batch::Taking;
use session::continuous::{AtOnce, Continuous};
use session::market::{Market, TakesOrders};
use session::opening::Opening;
use steps::call::{Call, OrderRef};

/// Makes one call. A round is shut, awarded and carried over; a refused call leaves the session as it was.
pub fn make<A: Auction>(session: Taking<A>, call: Call) -> Taking<A>
    ensures session { session_of result.tables ≡ (step (A.Auction.way session.rules) (session_of session.tables) call).1 }
    ensures rules { result.rules ≡ session.rules }
{
    let mut session = session;
    match call {
        Call::Place(ask) => make_deal(&mut session, Deal::Place(ask)),
        Call::Withdraw(order) => make_deal(&mut session, Deal::Withdraw(order)),
        Call::Round => session = session.shut().award().carry_over(),
    }
    session
}

/// Opens a batch session and makes the calls, whatever its rules.
pub fn replay<A: Auction>(figures: Opening, auction: A, calls: &[Call]) -> Taking<A>
    ensures run { session_of result.tables ≡ (run (A.Auction.way auction) figures.period.quarters calls.now).session }
    ensures rules { result.rules ≡ auction }
    ensures holds { Holds (A.Auction.way auction) figures.period.quarters (run (A.Auction.way auction) figures.period.quarters calls.now) }
{
    every_history_holds();
    auction.vouch();
    let mut session = Taking::open(figures, auction);
    for call in calls {
        session = make(session, *call);
    }
    session
}

// Not `Call`, since a continuous session has no round to make.
/// A call that is no round, as all calls of a continuous session are.
#[derive(Clone, Copy, PartialEq, Eq, Debug)]
pub enum Deal {
    Place(Ask),
    Withdraw(OrderRef),
}

/// Makes one call that is no round. A refused call leaves the session as it was.
pub fn make_deal<W, S: TakesOrders<W>>(session: &mut Market<W, S>, deal: Deal)
    ensures session { session_of session.new.tables ≡ (step (S.TakesOrders.way session.old.rules) (session_of session.old.tables) (call_of deal)).1 }
    ensures rules { session.new.rules ≡ session.old.rules }
{
    match deal {
        Deal::Place(ask) => {
            let _ = session.place(ask);
        }
        Deal::Withdraw(order) => {
            let _ = session.withdraw(order);
        }
    }
}

/// Opens a continuous session and makes the calls, whatever ranks its orders and prices its pairs.
pub fn replay_continuous<R: Ranking, P: PairPrice>(
    figures: Opening,
    price: P,
    deals: &[Deal],
) -> Continuous<R, P>
    ensures run { session_of result.tables ≡ (run (⟦<AtOnce as TakesOrders<PairedRules<R, P>>>⟧.way result.rules) figures.period.quarters (map call_of deals.now)).session }
    ensures rules { result.rules.price ≡ price }
    ensures holds { Holds (⟦<AtOnce as TakesOrders<PairedRules<R, P>>>⟧.way result.rules) figures.period.quarters (run (⟦<AtOnce as TakesOrders<PairedRules<R, P>>>⟧.way result.rules) figures.period.quarters (map call_of deals.now)) }
{
    continuous_sessions_hold::<R, P>();
    let mut session = Continuous::open(figures, price);
    // A loop of its own beside that of `replay`, since the calls differ: a continuous session has no rounds.
    for deal in deals {
        make_deal(&mut session, *deal);
    }
    session
}
