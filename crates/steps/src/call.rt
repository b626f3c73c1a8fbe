//! The calls of a session, and their answers.
use crate::refusal::Refusal;
use orders::order::{Ask, Life};

/// An order as its member names it: by the member and the number that was given to it.
#[derive(Clone, Copy, PartialEq, Eq, Debug)]
pub struct OrderRef {
    pub member: u8,
    pub number: u16,
}

/// A call that can change a session. A round is shut, award and carry over in a row.
#[derive(Clone, Copy, PartialEq, Eq, Debug)]
pub enum Call {
    Place(Ask),
    Withdraw(OrderRef),
    Round,
}

/// What a place answers: the order's number, and how much of it was killed.
#[derive(Clone, Copy, PartialEq, Eq, Debug)]
pub struct Acceptance {
    pub number: u16,
    pub killed: u32,
}

/// What a round answers: its volume, its price (0 where nothing trades, and in a paired round) and how many members have lines.
#[derive(Clone, Copy, PartialEq, Eq, Debug)]
pub struct Outcome {
    pub volume: u64,
    pub price: u16,
    pub members: u32,
}

/// What status answers: whether the order stands, and the quantity that it has left.
#[derive(Clone, Copy, PartialEq, Eq, Debug)]
pub struct Status {
    pub life: Life,
    pub left: u32,
}

/// What a call that is not refused answers.
#[derive(Clone, Copy, PartialEq, Eq, Debug)]
pub enum Reply {
    Accepted(Acceptance),
    Withdrawn(u32),
    Cleared(Outcome),
}

/// The answer to a call: its reply, or why it is refused.
pub type Answer = Result<Reply, Refusal>;
