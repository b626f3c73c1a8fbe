//! A book in plain words.
#![tactic(auto)]

ghost use Rattle.std.specs.Prelude.{◌≡◌, ℕ, ◌+◌, List, ◌++◌, length, take, IfOk, string_bytes, OnOk};
ghost use Rattle.book.specs.Reading.{entries};
ghost use Rattle.listing.specs.Words.{side_name, kind_name};
ghost use Rattle.listing.specs.Listing.{named_line, number_line, header_lines, record_line, record_lines, fault_line, listing_of};

use book::{Book, Entry, Fault, OrderKind, Side, open};
use std::alloc::{AllocError, Global};
use std::fmt;

/// The name of a side.
fn side_name(code: u8) -> &'static str
    ensures { result.now ≡ side_name code }
{
    Side::try_from(code).map_or("unknown", Side::name)
}

/// The name of an order's kind.
fn kind_name(code: u8) -> &'static str
    ensures { result.now ≡ kind_name code }
{
    OrderKind::try_from(code).map_or("unknown", OrderKind::name)
}

#[tactic(auto, unfolding(crate::specs::Listing::named_line))]
fn append_named(out: &mut String, label: &str, code: u8, name: &str) -> Result<(), AllocError>
    ensures { OnOk result (string_bytes out.new ≡ string_bytes out.old ++ named_line label.now code name.now) }
{
    writeln!(out, "{label} {code}, {name}")
}

#[tactic(auto, unfolding(crate::specs::Listing::number_line))]
fn append_number(out: &mut String, label: &str, n: usize) -> Result<(), AllocError>
    ensures { OnOk result (string_bytes out.new ≡ string_bytes out.old ++ number_line label.now n) }
{
    writeln!(out, "{label} {n}")
}

/// The lines of a book's header and of the number of its records.
fn append_header(out: &mut String, book: &Book) -> Result<(), AllocError>
    ensures { OnOk result (string_bytes out.new ≡ string_bytes out.old ++ header_lines book.now.header (length (entries book.now.rest.now))) }
{
    let header = book.header();
    append_named(out, "way", header.way, book.way().name())?;
    append_named(out, "sharing", header.sharing, book.sharing().name())?;
    append_number(out, "reference price", header.reference as usize)?;
    append_number(out, "period", header.period as usize)?;
    append_number(out, "records", book.len())
}

#[tactic(auto, unfolding(crate::specs::Listing::fault_line))]
fn append_fault(out: &mut String, fault: Fault) -> Result<(), AllocError>
    ensures { OnOk result (string_bytes out.new ≡ string_bytes out.old ++ fault_line fault) }
{
    let Fault { question, record } = fault;
    let number = question.number();
    writeln!(out, "fault {number} in record {record}: {question}")
}

#[tactic(auto, unfolding(crate::specs::Listing::record_line))]
fn append_record(out: &mut String, number: usize, entry: Entry) -> Result<(), AllocError>
    ensures { OnOk result (string_bytes out.new ≡ string_bytes out.old ++ record_line number entry) }
{
    match entry {
        Entry::Place(p) => {
            let side = side_name(p.side);
            let kind = kind_name(p.kind);
            let member = p.member;
            let limit = p.limit;
            let quantity = p.quantity;
            writeln!(
                out,
                "{number} place: {side}, {kind}, member {member}, limit {limit}, quantity {quantity}"
            )
        }
        Entry::Withdraw(w) => {
            let member = w.member;
            let order = w.number;
            writeln!(out, "{number} withdraw: member {member}, number {order}")
        }
        Entry::Round => writeln!(out, "{number} round"),
    }
}

/// The lines of the records that a book still has to hand out, counted from 1.
fn append_records(out: &mut String, book: Book) -> Result<(), AllocError>
    ensures { OnOk result (string_bytes out.new ≡ string_bytes out.old ++ record_lines 1 (entries book.entry.rest.now)) }
{
    for (i, record) in book.enumerate() {
        append_record(out, i + 1, Entry::from(record))?;
    }
    Ok(())
}

// Apart from `listing`: its clause, over every longer input, follows from this one.
fn listed(heap: Global, bytes: &[u8]) -> Result<String, AllocError>
    ensures { IfOk result (λ text. string_bytes text ≡ listing_of bytes.now) }
{
    let mut out = String::new(heap);
    match open(bytes) {
        Ok(book) => {
            append_header(&mut out, &book)?;
            append_records(&mut out, book)?;
        }
        Err(fault) => append_fault(&mut out, fault)?,
    }
    Ok(out)
}

/// The listing of a book: its header and its records in words, or its fault.
///
/// `bytes` may be the front of a longer input: one byte more than the longest book is enough.
pub fn listing(heap: Global, bytes: &[u8]) -> Result<String, AllocError>
    ensures { (input : List ℕ) → bytes.now ≡ take 24577 input → IfOk result (λ text. string_bytes text ≡ listing_of input) }
{
    listed(heap, bytes)
}
