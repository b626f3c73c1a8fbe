//! The packed order book: its format, its faults, reading and writing.
#![tactic(auto)]

ghost use Rattle.std.specs.Prelude.{◌≡◌};
ghost use Rattle.book.specs.Laws.{WrittenReadsBack, ReadIsOnlyWriting, FrontIsEnough};

mod codes;
mod fault;
mod layout;
mod reading;
mod values;
mod writing;

pub use codes::{OrderKind, Sharing, Side, Way};
pub use fault::{Fault, Question};
pub use layout::LONGEST_BOOK;
pub use reading::{Book, open, placement_of, withdrawal_of};
pub use values::{Entry, Header, Placement, Record, Withdrawal};
pub use writing::write;

/// What is written reads back, and what reads is the only writing of what it reads as.
#[tactic(auto, using(crate::proofs::RoundTrip::written_reads_back, crate::proofs::RoundTrip::read_is_only_writing))]
pub fn round_trip()
    ensures back { WrittenReadsBack }
    ensures only { ReadIsOnlyWriting }
{}

/// How many bytes of an input have to be read: one more than the longest book has, so that a longer input is known to be
/// too long.
pub fn enough() -> u64
    ensures { result ≡ 24577 }
{
    LONGEST_BOOK as u64 + 1
}

/// A reader of input needs one byte more than the longest book, and none behind it.
#[tactic(auto, using(crate::proofs::Fronts::front_is_enough))]
pub fn front_is_enough()
    ensures { FrontIsEnough }
{}
