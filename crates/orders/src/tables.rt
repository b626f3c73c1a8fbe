//! The plain tables of a session.
ghost use Rattle.orders.specs.Kept.{OrdersKept, LinesKept, AccountsKept};

use crate::order::{Account, Line, MEMBERS, MOST_LINES, MOST_ORDERS, Order};
use crate::period::Period;

// Plain arrays of fixed length, with the length that is in use beside them. Contracts see the tables by `session_of`, and not by a
// `Model`, since a session is more than its tables.
/// Every order of a session by number, the lines of the latest call, the accounts by member, and the period.
#[derive(Drop)]
pub struct Tables {
    pub(crate) orders: [Order; MOST_ORDERS],
    pub(crate) count: usize,
    pub(crate) lines: [Line; MOST_LINES],
    pub(crate) made: usize,
    pub(crate) accounts: [Account; MEMBERS],
    pub(crate) period: Period,
    ghost ordered: { OrdersKept orders count },
    ghost lined: { LinesKept lines made },
    ghost owed: { AccountsKept orders count accounts },
}
