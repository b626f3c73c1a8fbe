//! Rankings: which of two things is ahead, what a ranking of orders owes, and the one text that finds the best.
#![tactic(auto)]

ghost use Rattle.std.specs.Prelude.{◌≡◌, ℕ, Bool, true, false};
ghost use Rattle.ranking.specs.declared.OrderFields.{OrderFields};
ghost use Rattle.ranking.specs.Laws.{RankLaw, LimitLaw, better};
ghost use Rattle.ranking.specs.Orders.{MadeFrom, order_rank, OrderRankLaw};

pub mod find;
pub mod lines;
pub mod orders;

/// A thing that a ranking puts in order. Things differ by their mark.
pub trait Ranked: Sized {
    ghost mark: { Self → ℕ };

    ghost ahead: { Self → Self → Bool };

    /// Whether this thing is ahead of the other.
    fn is_ahead(&self, other: &Self) -> bool
        ensures { result ≡ ahead self.now other.now };

    ghost ranks: { RankLaw mark ahead };
}

/// A ranked thing with a limit and a left quantity, of one side.
pub trait Quote: Ranked {
    ghost buys: { Bool };

    ghost limit: { Self → ℕ };

    ghost left: { Self → ℕ };

    /// The limit.
    fn limit(&self) -> u16
        ensures { result ≡ limit self.now };

    /// The quantity that is left.
    fn left(&self) -> u32
        ensures { result ≡ left self.now };

    /// Whether this quote is ahead of the other, as it is wherever its limit is the better.
    fn outranks(&self, other: &Self) -> bool
        ensures is { result ≡ Self.Ranked.ahead self.now other.now }
        ensures limits { better buys (limit self.now) (limit other.now) ≡ true → result ≡ true }
    {
        self.is_ahead(other)
    }

    ghost limits: { LimitLaw buys limit Self.Ranked.ahead };
}

/// The plain fields of an order that a ranking may read.
#[derive(Clone, Copy, PartialEq, Eq, Debug)]
pub struct OrderFields {
    pub number: u16,
    pub limit: u16,
    pub placed: u32,
    pub left: u32,
}

/// A quote that is made from an order's plain fields.
pub trait OrderQuote: Quote {
    ghost made: { OrderFields → Self };

    /// The quote of an order.
    fn make(order: &OrderFields) -> Self
        ensures { result ≡ made order.now };

    ghost from: { MadeFrom Self.Ranked.mark Self.Quote.limit Self.Quote.left made };
}

/// A ranking of orders: its quotes of buys and of sells.
pub trait Ranking {
    type Buy: OrderQuote + Drop;

    type Sell: OrderQuote + Drop;

    ghost sides: { (Self.Buy.Quote.buys ≡ true) × (Self.Sell.Quote.buys ≡ false) };
}

/// Whether one order is ahead of another, by the quotes that a ranking makes of them.
pub fn is_order_ahead<Q: OrderQuote + Drop>(order: &OrderFields, other: &OrderFields) -> bool
    ensures { result ≡ order_rank Q.Ranked.ahead Q.OrderQuote.made order.now other.now }
{
    Q::make(order).outranks(&Q::make(other))
}

/// What every ranking shows of the orders of both sides.
pub fn orders_are_ranked<R: Ranking>()
    ensures buys { OrderRankLaw true (order_rank R.Buy.Ranked.ahead R.Buy.OrderQuote.made) }
    ensures sells { OrderRankLaw false (order_rank R.Sell.Ranked.ahead R.Sell.OrderQuote.made) }
{}
