//! What the codes of a header and of a placement stand for. A code that stands for nothing fails its question.
ghost use Rattle.std.specs.Prelude.{◌≡◌, ◌<◌, MatchResult};
ghost use Rattle.book.specs.declared.fault.Question.TheVariants.{Way as WayQuestion, Sharing as SharingQuestion, OrderKind as OrderKindQuestion, Fit};
ghost use Rattle.book.specs.Codes.{way_code, sharing_code, side_code, kind_code};
ghost use Rattle.book.specs.Names.{name_of_way, name_of_sharing, name_of_side, name_of_kind};

use crate::fault::Question;

/// How a book is cleared.
#[derive(Clone, Copy, PartialEq, Eq, Debug)]
pub enum Way {
    Crossing,
    Principles,
    BuyersPrice,
    SellersPrice,
    HalfTheSum,
    Continuous,
}

impl Way {
    // A `name`, here and below, and no `Display`: the listing puts a word of its own where a code has no name.
    /// Its name in plain words.
    pub fn name(self) -> &'static str
        ensures { result.now ≡ name_of_way self }
    {
        match self {
            Way::Crossing => "crossing",
            Way::Principles => "principles",
            Way::BuyersPrice => "buyer's price",
            Way::SellersPrice => "seller's price",
            Way::HalfTheSum => "half the sum",
            Way::Continuous => "continuous at the earlier order's price",
        }
    }
}

impl TryFrom<u8> for Way {
    type Error = Question;

    ghost try_from_gives = { λ code result. MatchResult result (λ value. way_code value ≡ code) (λ question. (question ≡ WayQuestion) × (5 < code)) };

    fn try_from(code: u8) -> Result<Way, Question> {
        match code {
            0 => Ok(Way::Crossing),
            1 => Ok(Way::Principles),
            2 => Ok(Way::BuyersPrice),
            3 => Ok(Way::SellersPrice),
            4 => Ok(Way::HalfTheSum),
            5 => Ok(Way::Continuous),
            _ => Err(Question::Way),
        }
    }
}

/// How the longer side of a uniform round is shared.
#[derive(Clone, Copy, PartialEq, Eq, Debug)]
pub enum Sharing {
    EarliestFirst,
    LargestFirst,
    ProRata,
}

impl Sharing {
    /// Its name in plain words.
    pub fn name(self) -> &'static str
        ensures { result.now ≡ name_of_sharing self }
    {
        match self {
            Sharing::EarliestFirst => "earliest first",
            Sharing::LargestFirst => "largest first",
            Sharing::ProRata => "pro rata",
        }
    }
}

impl TryFrom<u8> for Sharing {
    type Error = Question;

    ghost try_from_gives = { λ code result. MatchResult result (λ value. sharing_code value ≡ code) (λ question. (question ≡ SharingQuestion) × (2 < code)) };

    fn try_from(code: u8) -> Result<Sharing, Question> {
        match code {
            0 => Ok(Sharing::EarliestFirst),
            1 => Ok(Sharing::LargestFirst),
            2 => Ok(Sharing::ProRata),
            _ => Err(Question::Sharing),
        }
    }
}

// The format's own side and kind, besides those of `orders`: neither crate rests on the other.
/// The side of an order.
#[derive(Clone, Copy, PartialEq, Eq, Debug)]
pub enum Side {
    Buy,
    Sell,
}

impl Side {
    /// Its name in plain words.
    pub fn name(self) -> &'static str
        ensures { result.now ≡ name_of_side self }
    {
        match self {
            Side::Buy => "buy",
            Side::Sell => "sell",
        }
    }
}

impl TryFrom<u8> for Side {
    type Error = Question;

    ghost try_from_gives = { λ code result. MatchResult result (λ value. side_code value ≡ code) (λ question. (question ≡ Fit) × (1 < code)) };

    fn try_from(code: u8) -> Result<Side, Question> {
        match code {
            0 => Ok(Side::Buy),
            1 => Ok(Side::Sell),
            _ => Err(Question::Fit),
        }
    }
}

/// The kind of an order.
#[derive(Clone, Copy, PartialEq, Eq, Debug)]
pub enum OrderKind {
    Normal,
    FillAndKill,
    FillOrKill,
}

impl OrderKind {
    /// Its name in plain words.
    pub fn name(self) -> &'static str
        ensures { result.now ≡ name_of_kind self }
    {
        match self {
            OrderKind::Normal => "normal",
            OrderKind::FillAndKill => "fill-and-kill",
            OrderKind::FillOrKill => "fill-or-kill",
        }
    }
}

impl TryFrom<u8> for OrderKind {
    type Error = Question;

    ghost try_from_gives = { λ code result. MatchResult result (λ value. kind_code value ≡ code) (λ question. (question ≡ OrderKindQuestion) × (2 < code)) };

    fn try_from(code: u8) -> Result<OrderKind, Question> {
        match code {
            0 => Ok(OrderKind::Normal),
            1 => Ok(OrderKind::FillAndKill),
            2 => Ok(OrderKind::FillOrKill),
            _ => Err(Question::OrderKind),
        }
    }
}
