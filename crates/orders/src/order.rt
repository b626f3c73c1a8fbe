//! An order with its life, the line of a trade, a member's account.
ghost use Rattle.std.specs.Prelude.{◌≡◌, ℕ, true, not};
ghost use Rattle.orders.specs.Orders.{buys, after, sound_order, standing};
ghost use Rattle.orders.specs.Settlement.{line_of, worth};

/// The most orders that a session numbers.
pub const MOST_ORDERS: usize = 511;

/// The most lines of one call.
pub const MOST_LINES: usize = 1022;

/// Members are the numbers 1 to 63.
pub const LAST_MEMBER: u8 = 63;

/// How many accounts there are: they stand by member, from 0.
pub const MEMBERS: usize = LAST_MEMBER as usize + 1;

/// The least quantity of an order.
pub const LEAST_QUANTITY: u32 = 100;

/// The greatest quantity of an order.
pub const MOST_QUANTITY: u32 = 1_000_000;

/// The side of the market that an order is on.
#[derive(Clone, Copy, PartialEq, Eq, Debug)]
pub enum Side {
    Buy,
    Sell,
}

/// What becomes of the part of an order that does not trade at once.
#[derive(Clone, Copy, PartialEq, Eq, Debug)]
pub enum Kind {
    Normal,
    FillAndKill,
    FillOrKill,
}

/// Whether an order stands, and if not, how it ended.
#[derive(Clone, Copy, PartialEq, Eq, Debug)]
pub enum Life {
    Standing,
    Filled,
    Withdrawn,
    Killed,
}

/// What a member asks to place.
#[derive(Clone, Copy, PartialEq, Eq, Debug)]
pub struct Ask {
    pub member: u8,
    pub side: Side,
    pub kind: Kind,
    pub limit: u16,
    pub quantity: u32,
}

/// What can happen to an order: a fill of a quantity, its withdrawal, its kill.
#[derive(Clone, Copy, PartialEq, Eq, Debug)]
pub enum Event {
    Fill(u32),
    Withdraw,
    Kill,
}

/// An order: its number in the session, what its member asked for, and what is left of it.
#[derive(Clone, Copy, PartialEq, Eq, Debug)]
pub struct Order {
    pub number: u16,
    pub member: u8,
    pub side: Side,
    pub kind: Kind,
    pub limit: u16,
    pub placed: u32,
    pub left: u32,
    pub life: Life,
}

/// A line: what an order traded at a price, and its place in the making of its call.
#[derive(Clone, Copy, PartialEq, Eq, Debug)]
pub struct Line {
    pub side: Side,
    pub order: u16,
    pub member: u8,
    pub quantity: u32,
    pub price: u16,
    pub making: u16,
}

/// What a member pays, and what it gets, in fortieths of a rupee.
#[derive(Clone, Copy, PartialEq, Eq, Debug)]
pub struct Account {
    pub pays: u64,
    pub gets: u64,
}

impl Side {
    // A match: each side names the other.
    /// The other side.
    pub fn opposite(self) -> Side
        ensures { buys result ≡ not (buys self) }
    {
        match self {
            Side::Buy => Side::Sell,
            Side::Sell => Side::Buy,
        }
    }
}

impl Order {
    // A constant, which an array's repeat needs, and no `Default`: an order has no value that would serve where none is given.
    /// What stands in a place of a table that holds no order.
    pub const NONE: Order = Order {
        number: 0,
        member: 0,
        side: Side::Buy,
        kind: Kind::Normal,
        limit: 0,
        placed: 0,
        left: 0,
        life: Life::Standing,
    };

    /// The order after an event. Events move an order only out of standing; a fill takes at most what is left, and
    /// the fill that takes the last unit makes the order filled.
    pub fn after(self, event: Event) -> Order
        ensures is { result ≡ after event self }
        ensures sound { (k : ℕ) → sound_order k self ≡ true → sound_order k result ≡ true }
    {
        let (left, life) = match (self.life, event) {
            (Life::Standing, Event::Fill(quantity)) if quantity < self.left => (
                self.left - quantity,
                Life::Standing,
            ),
            (Life::Standing, Event::Fill(_)) => (0, Life::Filled),
            (Life::Standing, Event::Withdraw) => (0, Life::Withdrawn),
            (Life::Standing, Event::Kill) => (0, Life::Killed),
            (ended, _) => (self.left, ended),
        };
        Order { left, life, ..self }
    }

    /// What the order has left while it stands.
    pub fn standing(self) -> u32
        ensures { result ≡ standing self }
    {
        if self.life == Life::Standing {
            self.left
        } else {
            0
        }
    }

    /// The line of a trade of the order.
    pub(crate) fn line(self, quantity: u32, price: u16, making: u16) -> Line
        ensures { result ≡ line_of self quantity price making }
    {
        Line {
            side: self.side,
            order: self.number,
            member: self.member,
            quantity,
            price,
            making,
        }
    }
}

impl Line {
    // As `Order::NONE`.
    /// What stands in a place of a table that holds no line.
    pub const NONE: Line = Line {
        side: Side::Buy,
        order: 0,
        member: 0,
        quantity: 0,
        price: 0,
        making: 0,
    };

    /// What the line costs its buyer or earns its seller over a period of so many quarter-hours.
    pub(crate) fn worth(self, period: u16) -> u64
        ensures { result ≡ worth period self }
    {
        self.quantity as u64 * self.price as u64 * period as u64
    }
}

impl Account {
    // As `Order::NONE`: a `Default` would be a second word for it.
    /// An account that no line has come to.
    pub const NONE: Account = Account { pays: 0, gets: 0 };
}
