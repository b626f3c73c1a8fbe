//! The rows of a sheet.
ghost use Rattle.std.specs.Prelude.{◌≡◌, ◌++◌, OnOk};
ghost use Rattle.sheets.specs.Rows.{fault_row, no_row, round_row, line_row, account_row};

use book::Fault;
use orders::order::{Account, Line, Side};
use std::alloc::AllocError;
use steps::call::Outcome;
use steps::refusal::Refusal;
use text::put_row;

/// Writes the row of a fault behind a text.
#[tactic(auto, unfolding(crate::specs::Rows::fault_row))]
pub(crate) fn put_fault(out: &mut Vec<u8>, fault: Fault) -> Result<(), AllocError>
    ensures { OnOk result (out.new.items ≡ out.old.items ++ fault_row fault) }
{
    let question = fault.question.number();
    put_row(out, b"FAULT", &[question.into(), fault.record as u64])
}

/// Writes the row of a refused call.
#[tactic(auto, unfolding(crate::specs::Rows::no_row))]
pub(crate) fn put_no(out: &mut Vec<u8>, record: usize, refusal: Refusal) -> Result<(), AllocError>
    ensures { OnOk result (out.new.items ≡ out.old.items ++ no_row «record» refusal) }
{
    let question = refusal.number();
    put_row(out, b"NO", &[record as u64, question.into()])
}

/// Writes the row of a round.
#[tactic(auto, unfolding(crate::specs::Rows::round_row))]
pub(crate) fn put_round(out: &mut Vec<u8>, outcome: Outcome) -> Result<(), AllocError>
    ensures { OnOk result (out.new.items ≡ out.old.items ++ round_row outcome) }
{
    let Outcome {
        volume,
        price,
        members,
    } = outcome;
    put_row(out, b"ROUND", &[volume, price.into(), members.into()])
}

/// Writes the row of a line.
#[tactic(auto, unfolding(crate::specs::Rows::line_row))]
pub(crate) fn put_line(out: &mut Vec<u8>, line: Line) -> Result<(), AllocError>
    ensures { OnOk result (out.new.items ≡ out.old.items ++ line_row line) }
{
    let numbers = [
        line.order.into(),
        line.member.into(),
        line.quantity.into(),
        line.price.into(),
    ];
    match line.side {
        Side::Buy => put_row(out, b"B", &numbers),
        Side::Sell => put_row(out, b"S", &numbers),
    }
}

/// Writes the row of a member's account.
#[tactic(auto, unfolding(crate::specs::Rows::account_row))]
pub(crate) fn put_account(out: &mut Vec<u8>, member: u8, account: Account) -> Result<(), AllocError>
    ensures { OnOk result (out.new.items ≡ out.old.items ++ account_row member account) }
{
    put_row(
        out,
        b"ACCOUNT",
        &[member.into(), account.pays, account.gets],
    )
}
