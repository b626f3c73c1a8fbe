//! The questions that a book has to pass, and the fault of one that does not.
ghost use Rattle.std.specs.Prelude.{◌≡◌, [], ◌∷◌, Some};
ghost use Rattle.std.specs.Result.{result_err};
ghost use Rattle.book.specs.Numbers.{number_of};
ghost use Rattle.book.specs.Questions.{first_no, fault};
ghost use Rattle.book.specs.Wording.{wording};

use std::fmt;

/// The questions, in the order in which they are put.
#[derive(Clone, Copy, PartialEq, Eq, Debug)]
pub enum Question {
    /// Has the book six bytes or more?
    SixBytes = 14,
    /// Is the form 1?
    Form = 15,
    /// Is the way 0 to 5?
    Way = 16,
    /// Is the sharing 0 to 2, and 0 for the ways 2 to 5?
    Sharing = 17,
    /// Is the reference price 0, unless the way is 1?
    Reference = 18,
    /// Are the header's spare bits 0?
    HeaderSpare = 19,
    /// Is the length six bytes and six for each record?
    Length = 20,
    /// Is the record's kind 0 to 2, and 2 only for ways below 5?
    Kind = 21,
    /// Is the order's kind 0 to 2?
    OrderKind = 22,
    /// Are the record's spare bits 0?
    RecordSpare = 23,
    /// Do the values, and the record count, fit their fields?
    Fit = 24,
    /// Is the buffer long enough?
    Room = 25,
}

impl Question {
    /// The number by which members know the question.
    pub fn number(self) -> u8
        ensures { result ≡ number_of self }
    {
        self as u8
    }

    /// Puts the question: a no is the error.
    pub(crate) fn ask(self, yes: bool) -> Result<(), Question>
        ensures { result_err result ≡ first_no ((self, yes) ∷ []) }
    {
        if yes { Ok(()) } else { Err(self) }
    }
}

impl fmt::Display for Question {
    ghost output = { λ question. Some (wording question) };

    fn fmt<W: fmt::Write>(&self, f: &mut fmt::Formatter<W>) -> fmt::Result {
        f.write_str(match self {
            Question::SixBytes => "has the book six bytes or more?",
            Question::Form => "is the form 1?",
            Question::Way => "is the way 0 to 5?",
            Question::Sharing => "is the sharing 0 to 2, and 0 for the ways 2 to 5?",
            Question::Reference => "is the reference price 0, unless the way is 1?",
            Question::HeaderSpare => "are the header's spare bits 0?",
            Question::Length => "is the length 6 bytes plus 6 for each record?",
            Question::Kind => "is the kind 0 to 2, and 2 only for ways below 5?",
            Question::OrderKind => "is the order kind 0 to 2?",
            Question::RecordSpare => "are the record's spare bits 0?",
            Question::Fit => "do the values fit their fields?",
            Question::Room => "is the buffer long enough?",
        })
    }
}

// 0 is the header's number in a fault, as it is printed.
/// The first question that is answered no, and the record that it is about: counted from 1, and 0 for the header.
#[derive(Clone, Copy, PartialEq, Eq, Debug)]
pub struct Fault {
    pub question: Question,
    pub record: usize,
}

impl From<Question> for Fault {
    ghost from_gives = { λ question result. result ≡ fault question 0 };

    /// The header's fault: its record is 0.
    fn from(question: Question) -> Fault {
        Fault {
            question,
            record: 0,
        }
    }
}
