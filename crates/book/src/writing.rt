//! Writes a book into a buffer that the caller lends.
ghost use Rattle.std.specs.Prelude.{◌≡◌, ℕ, ◌+◌, ◌-◌, ◌*◌, ◌<◌, ◌≤◌, List, ◌++◌, map, length, take, drop, IfOk, Ok, Result};
ghost use Rattle.std.specs.Result.{result_err};
ghost use Rattle.packing.specs.Fields.{bytes};
ghost use Rattle.book.specs.Questions.{Asked, first_no, first_fault};
ghost use Rattle.book.specs.declared.values.Entry.{Entry};
ghost use Rattle.book.specs.Reading.{read_book};
ghost use Rattle.book.specs.Writing.{header_word, entry_word, header_fits, entry_fits, fit_questions, read_questions, book_length, encode, write_fault, write as written};

use crate::fault::{Fault, Question};
use crate::layout::*;
use crate::reading::{ask_record, ask_values};
use crate::values::{Entry, Header, Placement, Withdrawal};
use packing::bytes_of;

fn placement_fits(p: Placement) -> bool
    ensures { result ≡ entry_fits (Entry.Place p) }
{
    SIDE.fits(p.side as u64)
        && ORDER_KIND.fits(p.kind as u64)
        && MEMBER.fits(p.member as u64)
        && LIMIT.fits(p.limit as u64)
        && QUANTITY.fits(p.quantity as u64)
}

fn withdrawal_fits(w: Withdrawal) -> bool
    ensures { result ≡ entry_fits (Entry.Withdraw w) }
{
    OWNER.fits(w.member as u64) && NUMBER.fits(w.number as u64)
}

fn entry_fits(entry: Entry) -> bool
    ensures { result ≡ entry_fits entry }
{
    match entry {
        Entry::Place(p) => placement_fits(p),
        Entry::Withdraw(w) => withdrawal_fits(w),
        Entry::Round => true,
    }
}

fn header_fits(h: Header, count: usize) -> bool
    ensures { result ≡ header_fits h count }
{
    WAY.fits(h.way as u64)
        && SHARING.fits(h.sharing as u64)
        && REFERENCE.fits(h.reference as u64)
        && PERIOD.fits(h.period as u64)
        && COUNT.fits(count as u64)
}

fn placement_word(p: Placement) -> u64
    ensures { result ≡ entry_word (Entry.Place p) }
{
    SIDE.embed(p.side as u64)
        + ORDER_KIND.embed(p.kind as u64)
        + MEMBER.embed(p.member as u64)
        + LIMIT.embed(p.limit as u64)
        + QUANTITY.embed(p.quantity as u64)
}

// The kinds' numbers, here and below, are those that `ask_record` reads: 0 a place, 1 a withdrawal, 2 a round.
fn withdrawal_word(w: Withdrawal) -> u64
    ensures { result ≡ entry_word (Entry.Withdraw w) }
{
    KIND.embed(1) + OWNER.embed(w.member as u64) + NUMBER.embed(w.number as u64)
}

fn entry_word(entry: Entry) -> u64
    ensures { result ≡ entry_word entry }
{
    match entry {
        Entry::Place(p) => placement_word(p),
        Entry::Withdraw(w) => withdrawal_word(w),
        Entry::Round => KIND.embed(2),
    }
}

fn header_word(h: Header, count: usize) -> u64
    requires { count < 4096 }
    ensures { result ≡ header_word h count }
{
    FORM.embed(FORM_OF_BOOKS)
        + WAY.embed(h.way as u64)
        + SHARING.embed(h.sharing as u64)
        + REFERENCE.embed(h.reference as u64)
        + PERIOD.embed(h.period as u64)
        + COUNT.embed(count as u64)
}

/// Puts its questions to each record in turn.
fn ask_each<F: Fn(Entry) -> Result<(), Question>>(entries: &[Entry], ask: F) -> Result<(), Fault>
    ghost asks: { Entry → List Asked }
    requires callable { F.IsAlwaysCallable ask }
    requires answers { (e : Entry) (r : _) → F.post ask e r → result_err r ≡ first_no (asks e) }
    ensures { result_err result ≡ first_fault asks 1 entries.now }
{
    for (i, entry) in entries.iter().enumerate() {
        // By `if let`: the fault has the record's number, which `From` does not know.
        if let Err(question) = ask(*entry) {
            return Err(Fault {
                question,
                record: i + 1,
            });
        }
    }
    Ok(())
}

/// Puts the questions of writing into a buffer of `len` bytes.
fn ask_write(header: Header, entries: &[Entry], len: usize) -> Result<(), Fault>
    ensures { result_err result ≡ write_fault header entries.now len }
{
    Question::Fit.ask(header_fits(header, entries.len()))?;
    ask_each(
        entries,
        |entry: Entry| -> Result<(), Question>
            ensures { result_err result ≡ first_no (fit_questions entry) }
        { Question::Fit.ask(entry_fits(entry)) },
    )?;
    Question::Room.ask(SIX + SIX * entries.len() <= len)?;
    ask_values(header)?;
    let way = header.way;
    ask_each(
        entries,
        move |entry: Entry| -> Result<(), Question>
            ensures { result_err result ≡ first_no (read_questions way entry) }
        { ask_record(way, entry_word(entry)) },
    )
}

/// Puts six bytes at a place.
#[tactic(auto, using(crate::proofs::Buffers::put_six))]
fn put(out: &mut [u8], at: usize, six: [u8; 6])
    requires { at + 6 ≤ length out.old }
    ensures { out.new ≡ take at out.old ++ (six ++ drop (at + 6) out.old) }
{
    out[at..at + SIX].copy_from_slice(&six);
}

fn put_all(header: Header, entries: &[Entry], out: &mut [u8]) -> usize
    requires { (length entries.now < 4096) × (book_length entries.now ≤ length out.old) }
    ensures count { result ≡ book_length entries.now }
    ensures bytes { out.new ≡ encode header entries.now ++ drop (book_length entries.now) out.old }
{
    put(out, 0, bytes_of(header_word(header, entries.len())));
    // Each place by its number: after the borrows of `chunks_exact_mut` no proof knows what was written.
    for (i, entry) in entries.iter().enumerate() {
        put(out, SIX + SIX * i, bytes_of(entry_word(*entry)));
    }
    SIX + SIX * entries.len()
}

/// Writes a book to the front of a buffer and answers its length. The bytes behind stay, and a fault leaves all as it was.
#[tactic(auto, using(crate::proofs::RoundTrip::write_room, crate::proofs::RoundTrip::reads_written))]
pub fn write(header: Header, entries: &[Entry], out: &mut [u8]) -> Result<usize, Fault>
    ensures answers { ◌≡◌ {A = Result ℕ Fault × List ℕ} (result, out.new) (written header entries.now out.old) }
    ensures reads { IfOk result (λ n. read_book (take n out.new) ≡ Ok (header, entries.now)) }
{
    ask_write(header, entries, out.len())?;
    Ok(put_all(header, entries, out))
}
