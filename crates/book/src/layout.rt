//! Where each field stands: its first bit, counted from the most significant of 48, and its width.
use packing::Field;

/// The bytes of the header, and of each record.
pub const SIX: usize = 6;

/// The bytes of the longest book: a header and 4,095 records, the most that the count's 12 bits can tell.
pub const LONGEST_BOOK: usize = 24_576;

/// The one form of book that there is.
pub const FORM_OF_BOOKS: u64 = 1;

// The header.
pub const FORM: Field = Field { first: 0, width: 4 };

pub const WAY: Field = Field { first: 4, width: 3 };

pub const SHARING: Field = Field { first: 7, width: 2 };

pub const REFERENCE: Field = Field {
    first: 9,
    width: 11,
};

pub const PERIOD: Field = Field {
    first: 20,
    width: 12,
};

pub const COUNT: Field = Field {
    first: 32,
    width: 12,
};

pub const HEADER_SPARE: Field = Field {
    first: 44,
    width: 4,
};

// Every record.
pub const KIND: Field = Field { first: 0, width: 2 };

// A place.
pub const SIDE: Field = Field { first: 2, width: 1 };

pub const ORDER_KIND: Field = Field { first: 3, width: 2 };

pub const MEMBER: Field = Field { first: 5, width: 6 };

pub const LIMIT: Field = Field {
    first: 11,
    width: 11,
};

pub const QUANTITY: Field = Field {
    first: 22,
    width: 20,
};

pub const PLACE_SPARE: Field = Field {
    first: 42,
    width: 6,
};

// A withdrawal.
pub const OWNER: Field = Field { first: 2, width: 6 };

pub const NUMBER: Field = Field { first: 8, width: 9 };

pub const WITHDRAW_SPARE: Field = Field {
    first: 17,
    width: 31,
};

// A round.
pub const ROUND_SPARE: Field = Field {
    first: 2,
    width: 46,
};
