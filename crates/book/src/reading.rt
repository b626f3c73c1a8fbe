//! Opens a book and hands out its records.
ghost use Rattle.std.specs.Prelude.{◌≡◌, ◌<◌, ◌≤◌, length, take, IfOk, Ok, Err, MatchResult, IfSome};
ghost use Rattle.std.specs.Result.{result_err};
ghost use Rattle.std.specs.Iterator.{YieldsFirstBy, at_most};
ghost use Rattle.std.proofs.Props.{props};
ghost use Rattle.packing.specs.Fields.{word};
ghost use Rattle.book.specs.Format.{header_of, placement_of, withdrawal_of, entry_of};
ghost use Rattle.book.specs.Questions.{value_questions, word_questions, record_questions, first_no, first_fault};
ghost use Rattle.book.specs.Reading.{words, entries, read_book, value_of, bytes_of, Lawful, NoRounds};
ghost use Rattle.book.specs.Codes.{way_code, sharing_code};
ghost use Rattle.book.specs.Laws.{Faulty, Faultless};
ghost use Rattle.book.specs.Writing.{encode};

use crate::codes::{Sharing, Way};
use crate::fault::{Fault, Question};
use crate::layout::*;
use crate::values::{Entry, Header, Placement, Record, Withdrawal};
use packing::word_of;

// By ranges of the codes: a sharing has to suit its way, which no `TryFrom` of one code could tell.
/// Asks whether the values of a header may stand together.
pub(crate) fn ask_values(header: Header) -> Result<(), Question>
    ensures { result_err result ≡ first_no (value_questions header.way header.sharing header.reference) }
{
    Question::Way.ask(matches!(header.way, 0..=5))?;
    Question::Sharing.ask(matches!((header.way, header.sharing), (0..=1, 0..=2) | (_, 0)))?;
    Question::Reference.ask(header.way == 1 || header.reference == 0)
}

/// The values in a header's word.
fn header_of(word: u64) -> Header
    ensures { result ≡ header_of word }
{
    Header {
        way: WAY.cut(word) as u8,
        sharing: SHARING.cut(word) as u8,
        reference: REFERENCE.cut(word) as u16,
        period: PERIOD.cut(word) as u16,
    }
}

/// Puts the questions to a header's word, in a book of `len` bytes.
fn ask_header(word: u64, len: usize) -> Result<(), Question>
    ensures { result_err result ≡ first_no (word_questions word len) }
{
    Question::Form.ask(FORM.cut(word) == FORM_OF_BOOKS)?;
    ask_values(header_of(word))?;
    Question::HeaderSpare.ask(HEADER_SPARE.cut(word) == 0)?;
    Question::Length.ask(len == SIX + SIX * COUNT.cut(word) as usize)
}

/// Puts the questions to a record's word, under the header's way.
pub(crate) fn ask_record(way: u8, word: u64) -> Result<(), Question>
    ensures { result_err result ≡ first_no (record_questions way word) }
{
    // One match with a guard and ranges: the kind tells which bits are spare, and 2 is a kind for ways below 5 only.
    let spare = match KIND.cut(word) {
        0 => match ORDER_KIND.cut(word) {
            0..=2 => PLACE_SPARE.cut(word),
            _ => return Err(Question::OrderKind),
        },
        1 => WITHDRAW_SPARE.cut(word),
        2 if way < 5 => ROUND_SPARE.cut(word),
        _ => return Err(Question::Kind),
    };
    Question::RecordSpare.ask(spare == 0)
}

/// Puts the questions to the records in some bytes.
fn ask_records(way: u8, s: &[u8]) -> Result<(), Fault>
    ensures { result_err result ≡ first_fault (record_questions way) 1 (words s.now) }
{
    let mut rest = s;
    // Counted by hand: the slice pattern takes the next six bytes, and leaves no iterator to enumerate.
    let mut record: usize = 1;
    while let [a, b, c, d, e, f, more @ ..] = rest {
        // By `if let`: the fault has the record's number, which `From` does not know.
        if let Err(question) = ask_record(way, word_of(&[*a, *b, *c, *d, *e, *f])) {
            return Err(Fault { question, record });
        }
        record += 1;
        rest = more;
    }
    Ok(())
}

/// The record of six bytes, by their kind.
impl<'a> From<&'a [u8; 6]> for Record<'a> {
    ghost from_gives = { λ six given. (value_of given ≡ entry_of (word six.now)) × (bytes_of given ≡ six.now) };

    fn from(six: &'a [u8; 6]) -> Record<'a> {
        match KIND.cut(word_of(six)) {
            0 => Record::Place(six),
            1 => Record::Withdraw(six),
            _ => Record::Round(six),
        }
    }
}

/// The plain value of a record.
impl<'a> From<Record<'a>> for Entry {
    ghost from_gives = { λ given entry. entry ≡ value_of given };

    fn from(record: Record<'a>) -> Entry {
        match record {
            Record::Place(six) => Entry::Place(placement_of(six)),
            Record::Withdraw(six) => Entry::Withdraw(withdrawal_of(six)),
            Record::Round(_) => Entry::Round,
        }
    }
}

// No `From` for these two, nor for `header_of`: the same six bytes can be read as any of them, and the name says as which.

/// The order that the six bytes of a place hold.
pub fn placement_of(six: &[u8; 6]) -> Placement
    ensures { result ≡ placement_of (word six.now) }
{
    let word = word_of(six);
    Placement {
        side: SIDE.cut(word) as u8,
        kind: ORDER_KIND.cut(word) as u8,
        member: MEMBER.cut(word) as u8,
        limit: LIMIT.cut(word) as u16,
        quantity: QUANTITY.cut(word) as u32,
    }
}

/// The order that the six bytes of a withdrawal name.
pub fn withdrawal_of(six: &[u8; 6]) -> Withdrawal
    ensures { result ≡ withdrawal_of (word six.now) }
{
    let word = word_of(six);
    Withdrawal {
        member: OWNER.cut(word) as u8,
        number: NUMBER.cut(word) as u16,
    }
}

/// A book without fault: its header, and the bytes of the records that are still to be handed out.
#[derive(Clone, Copy)]
pub struct Book<'a> {
    header: Header,
    rest: &'a [u8],
    ghost few: { length (entries rest.now) < 4096 },
    ghost lawful: { Lawful header },
    ghost continuous: { 5 ≤ header.way → NoRounds (entries rest.now) } by { Prim.hlevel props },
}

/// Reads a book as far as its first fault.
pub fn open<'a>(s: &'a [u8]) -> Result<Book<'a>, Fault>
    ensures reads { MatchResult result (λ b. read_book s.now ≡ Ok (b.header, entries b.rest.now)) (λ f. read_book s.now ≡ Err f) }
    ensures tells { MatchResult result (λ _. Faultless s.now) (λ f. Faulty s.now f) }
    ensures only { IfOk result (λ b. s.now ≡ encode b.header (entries b.rest.now)) }
    ensures few { IfOk result (λ b. length (entries b.rest.now) < 4096) }
{
    let [a, b, c, d, e, f, rest @ ..] = s else {
        // The pattern is the question.
        return Err(Fault::from(Question::SixBytes));
    };
    let word = word_of(&[*a, *b, *c, *d, *e, *f]);
    ask_header(word, s.len())?;
    let header = header_of(word);
    ask_records(header.way, rest)?;
    Ok(Book { header, rest })
}

impl<'a> Book<'a> {
    /// The header's values.
    pub fn header(&self) -> Header
        ensures { result ≡ self.now.header }
    {
        self.header
    }

    /// How many records are still to be handed out.
    #[tactic(auto, using(crate::proofs::Words::length_entries))]
    pub fn len(&self) -> usize
        ensures { result ≡ length (entries self.now.rest.now) }
    {
        self.rest.len() / SIX
    }

    /// How the book is cleared.
    pub fn way(&self) -> Way
        ensures { way_code result ≡ self.now.header.way }
    {
        Way::try_from(self.header.way).unwrap()
    }

    /// How the longer side of its uniform rounds is shared.
    pub fn sharing(&self) -> Sharing
        ensures { sharing_code result ≡ self.now.header.sharing }
    {
        Sharing::try_from(self.header.sharing).unwrap()
    }
}

/// Hands out the records.
impl<'a> Iterator for Book<'a> {
    type Item = Record<'a>;

    ghost next_gives = { λ before given after. (after.header ≡ before.header) × YieldsFirstBy value_of (λ b. entries b.rest.now) before given after × IfSome given (λ x. bytes_of x ≡ take 6 before.rest.now) };

    ghost remaining = { λ book. at_most (length (entries book.rest.now)) };

    #[tactic(auto, using(crate::proofs::Words::entries_step, crate::proofs::Words::fewer, crate::proofs::Words::no_rounds_rest))]
    fn next(&mut self) -> Option<Record<'a>> {
        let s = self.rest;
        let [_, _, _, _, _, _, rest @ ..] = s else {
            return None;
        };
        // The pattern lends no array of six.
        let six = s.first_chunk::<6>()?;
        self.rest = rest;
        Some(Record::from(six))
    }
}
