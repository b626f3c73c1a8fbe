//! What a book holds: its header and its records, as plain values.
//! Way, sharing, side and kind are plain numbers here: `write` takes any and answers the fault of a wrong one, while enums
//! would leave that question to its callers.

/// The header's values. The form, the record count and the spare bits are not among them: writing fills them in.
#[derive(Clone, Copy, PartialEq, Eq, Debug)]
pub struct Header {
    pub way: u8,
    pub sharing: u8,
    pub reference: u16,
    pub period: u16,
}

/// An order to be placed.
#[derive(Clone, Copy, PartialEq, Eq, Debug)]
pub struct Placement {
    pub side: u8,
    pub kind: u8,
    pub member: u8,
    pub limit: u16,
    pub quantity: u32,
}

/// An order to be withdrawn: its member and its number.
#[derive(Clone, Copy, PartialEq, Eq, Debug)]
pub struct Withdrawal {
    pub member: u8,
    pub number: u16,
}

/// A record as a plain value.
#[derive(Clone, Copy, PartialEq, Eq, Debug)]
pub enum Entry {
    Place(Placement),
    Withdraw(Withdrawal),
    Round,
}

/// A record by its kind, with its six bytes of the book.
#[derive(Clone, Copy)]
pub enum Record<'a> {
    Place(&'a [u8; 6]),
    Withdraw(&'a [u8; 6]),
    Round(&'a [u8; 6]),
}
