//! The calls of a book's records, and what each adds to the sheet.
ghost use Rattle.std.specs.Prelude.{◌≡◌, ℕ, false, OnOk};
ghost use Rattle.orders.specs.Held.{session_of};
ghost use Rattle.steps.specs.declared.call.Call.TheVariants.{Place, Withdraw, Round};
ghost use Rattle.steps.specs.Ways.{is_continuous};
ghost use Rattle.steps.specs.Calls.{step};
ghost use Rattle.sheets.specs.Growing.{Told};

use crate::growing::Sheet;
use orders::order::Ask;
use ranking::Ranking;
use rules::pair::PairPrice;
use session::auction::{Auction, PairedRules};
use session::batch::Open;
use session::continuous::AtOnce;
use session::market::{Market, ShowsLines, TakesOrders};
use std::alloc::AllocError;
use steps::call::OrderRef;

/// Places an order, and adds its lines, or why it was refused.
pub(crate) fn place<W, S: TakesOrders<W> + ShowsLines>(
    session: &mut Market<W, S>,
    sheet: &mut Sheet,
    number: usize,
    ask: Ask,
) -> Result<(), AllocError>
    ensures sheet { OnOk result (Told number (step (S.TakesOrders.way session.old.rules) (session_of session.old.tables) (Place ask)) sheet.old sheet.new) }
    ensures session { session_of session.new.tables ≡ (step (S.TakesOrders.way session.old.rules) (session_of session.old.tables) (Place ask)).1 }
    ensures rules { session.new.rules ≡ session.old.rules }
{
    match session.place(ask) {
        Ok(_) => sheet.put_lines(session.lines()),
        Err(refusal) => sheet.put_no(number, refusal),
    }
}

/// Withdraws an order, and adds why that was refused, where it was.
pub(crate) fn withdraw<W, S: TakesOrders<W>>(
    session: &mut Market<W, S>,
    sheet: &mut Sheet,
    number: usize,
    order: OrderRef,
) -> Result<(), AllocError>
    ensures sheet { OnOk result (Told number (step (S.TakesOrders.way session.old.rules) (session_of session.old.tables) (Withdraw order)) sheet.old sheet.new) }
    ensures session { session_of session.new.tables ≡ (step (S.TakesOrders.way session.old.rules) (session_of session.old.tables) (Withdraw order)).1 }
    ensures rules { session.new.rules ≡ session.old.rules }
{
    match session.withdraw(order) {
        Ok(_) => Ok(()),
        Err(refusal) => sheet.put_no(number, refusal),
    }
}

/// A state in which the calls of a book's records are made, rounds among them.
pub(crate) trait MakesRounds<W>: TakesOrders<W> + ShowsLines + Sized {
    /// Makes a round, and adds it with its lines. A continuous session has none, and promises nothing of them.
    fn round(session: &mut Market<W, Self>, sheet: &mut Sheet) -> Result<(), AllocError>
        ensures sheet { is_continuous (Self.TakesOrders.way session.old.rules) ≡ false → (k : ℕ) → OnOk result (Told k (step (Self.TakesOrders.way session.old.rules) (session_of session.old.tables) Round) sheet.old sheet.new) }
        ensures session { is_continuous (Self.TakesOrders.way session.old.rules) ≡ false → session_of session.new.tables ≡ (step (Self.TakesOrders.way session.old.rules) (session_of session.old.tables) Round).1 }
        ensures rules { session.new.rules ≡ session.old.rules };
}

impl<A: Auction> MakesRounds<A> for Open {
    fn round(session: &mut Market<A, Open>, sheet: &mut Sheet) -> Result<(), AllocError> {
        let outcome = session.round();
        sheet.put_round(outcome, session.lines())
    }
}

impl<R: Ranking, P: PairPrice> MakesRounds<PairedRules<R, P>> for AtOnce {
    fn round(
        _session: &mut Market<PairedRules<R, P>, AtOnce>,
        _sheet: &mut Sheet,
    ) -> Result<(), AllocError> {
        Ok(())
    }
}
