//! The sheet of a book's bytes.
ghost use Rattle.std.specs.Prelude.{◌≡◌, ℕ, List, take, IfOk};
ghost use Rattle.book.specs.Reading.{entries};
ghost use Rattle.book.specs.declared.values.Header.{Header};
ghost use Rattle.history.specs.Histories.{HistoriesHold};
ghost use Rattle.sheets.specs.Calls.{way_of};
ghost use Rattle.steps.specs.Refusals.{first_no};
ghost use Rattle.steps.specs.Calls.{open_questions};
ghost use Rattle.sheets.specs.Rows.{fault_row};
ghost use Rattle.sheets.specs.Sheet.{opened_text, sheet_of, Right};

use crate::opened::Opened;
use crate::rows::{put_fault, put_no};
use book::{Book, Fault, open};
use history::{continuous_sessions_hold, paired_sessions_hold, uniform_sessions_hold};
use ranking::orders::{Continuous, Paired};
use rules::pair::{BuyersPrice, EarlierOrders, HalfTheSum, SellersPrice};
use rules::price::{Crossing, Principles};
use rules::sharing::{EarliestFirst, LargestFirst, ProRata};
use session::opening::Opening;
use std::alloc::{AllocError, Global};

/// Whatever a book's header says, the theorem over every list of calls holds of its way.
pub fn every_way_holds()
    ensures { (h : Header) → HistoriesHold (way_of h) }
{
    uniform_sessions_hold::<Crossing, EarliestFirst>();
    uniform_sessions_hold::<Crossing, LargestFirst>();
    uniform_sessions_hold::<Crossing, ProRata>();
    uniform_sessions_hold::<Principles, EarliestFirst>();
    uniform_sessions_hold::<Principles, LargestFirst>();
    uniform_sessions_hold::<Principles, ProRata>();
    paired_sessions_hold::<Paired, BuyersPrice>();
    paired_sessions_hold::<Paired, SellersPrice>();
    paired_sessions_hold::<Paired, HalfTheSum>();
    continuous_sessions_hold::<Continuous, EarlierOrders>();
}

/// The text of a book that reads: that of its calls, or of its opening where that is refused.
fn opened(heap: Global, book: Book) -> Result<Vec<u8>, AllocError>
    ensures { IfOk result (λ text. text.items ≡ opened_text (first_no (open_questions book.entry.header.period book.entry.header.reference)) book.entry.header (entries book.entry.rest.now)) }
{
    let header = book.header();
    match Opening::new(header.period, header.reference) {
        Ok(figures) => Opened {
            heap,
            figures,
            book,
        }
        .cleared(),
        Err(refusal) => {
            let mut text = Vec::new(heap);
            put_no(&mut text, 0, refusal)?;
            Ok(text)
        }
    }
}

/// The text of a book that does not read.
fn fault_text(heap: Global, fault: Fault) -> Result<Vec<u8>, AllocError>
    ensures { IfOk result (λ text. text.items ≡ fault_row fault) }
{
    let mut text = Vec::new(heap);
    put_fault(&mut text, fault)?;
    Ok(text)
}

/// The sheet of a book, which may be the front of a longer input: one byte more than the longest book is enough.
/// What the sheet tells is right: the theorem over every list of calls holds of the book's calls.
pub fn sheet(heap: Global, bytes: &[u8]) -> Result<Vec<u8>, AllocError>
    ensures text { (input : List ℕ) → bytes.now ≡ take 24577 input → IfOk result (λ text. text.items ≡ sheet_of input) }
    ensures right { (input : List ℕ) → bytes.now ≡ take 24577 input → Right input }
{
    every_way_holds();
    match open(bytes) {
        Ok(book) => opened(heap, book),
        Err(fault) => fault_text(heap, fault),
    }
}
