//! Why a call is refused.
ghost use Rattle.std.specs.Prelude.{◌≡◌, Ok, Err, if◌then◌else◌};
ghost use Rattle.steps.specs.Refusals.{number_of};

/// The question that was answered no, in the order in which they are put.
#[derive(Clone, Copy, PartialEq, Eq, Debug)]
pub enum Refusal {
    /// Is the period 1 to 2,976 quarter-hours?
    Period = 1,
    /// Is the reference price a tick?
    Reference = 2,
    /// Is the member 1 to 63?
    Member = 3,
    /// Is the limit, or the tick that is asked about, at most 2,000?
    Limit = 4,
    /// Is the quantity 100 to 1,000,000?
    Quantity = 5,
    /// Is the order normal, or the session continuous?
    Kind = 6,
    /// Has the member no standing order on the other side?
    OtherSide = 7,
    /// Have fewer than 511 numbers been given?
    Numbers = 8,
    /// Do the lines of the call fit 1,022 places?
    Lines = 9,
    /// Has the number been given?
    NotGiven = 10,
    /// Is the order this member's?
    NotOwned = 11,
    /// Is the order standing?
    NotStanding = 12,
    /// Is the place below the line count?
    NoSuchLine = 13,
}

// As `Question` of `book`: the two crates rest on no crate in common.
impl Refusal {
    /// Goes on where the question is answered yes, and refuses where it is answered no.
    pub fn ask(self, yes: bool) -> Result<(), Refusal>
        ensures { result ≡ (if yes then Ok tt else Err self) }
    {
        if yes { Ok(()) } else { Err(self) }
    }

    /// The number by which members know the question.
    pub fn number(self) -> u8
        ensures { result ≡ number_of self }
    {
        self as u8
    }
}
