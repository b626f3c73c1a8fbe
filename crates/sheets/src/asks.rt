//! What a record asks for.
ghost use Rattle.std.specs.Prelude.{◌≡◌};
ghost use Rattle.sheets.specs.Calls.{ask_of};

use book::{Placement, Withdrawal};
use orders::order::{Ask, Kind, Side};
use steps::call::OrderRef;

/// The ask of a placement. It is no `From`, nor is the next, since both types are of other crates; and it goes by the
/// codes, since `TryFrom` would answer a question that a record of a book has passed.
pub(crate) fn ask_of(placement: Placement) -> Ask
    ensures { result ≡ ask_of placement }
{
    let side = match placement.side {
        0 => Side::Buy,
        _ => Side::Sell,
    };
    let kind = match placement.kind {
        0 => Kind::Normal,
        1 => Kind::FillAndKill,
        _ => Kind::FillOrKill,
    };
    Ask {
        member: placement.member,
        side,
        kind,
        limit: placement.limit,
        quantity: placement.quantity,
    }
}

/// The order that a withdrawal names.
pub(crate) fn order_of(withdrawal: Withdrawal) -> OrderRef
    ensures { result ≡ record { member = withdrawal.member; number = withdrawal.number } }
{
    OrderRef {
        member: withdrawal.member,
        number: withdrawal.number,
    }
}
