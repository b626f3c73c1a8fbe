//! What the tables hold, and how one element of them changes.
ghost use Rattle.std.specs.Prelude.{◌≡◌, suc, ◌+◌, ◌*◌, ◌^◌, ◌<◌, ◌≤◌, true, length, if◌then◌else◌, Some, None, sum_by};
ghost use Rattle.orders.specs.Orders.{most_orders, at, standing};
ghost use Rattle.orders.specs.Settlement.{member_places, opening, account, worth, charged, changed, with_orders, with_charge, with_line, cleared, SettledOneByOne};
ghost use Rattle.orders.specs.Kept.{Sound, SoundLines, sound_line, most_lines, dearest, gone};
ghost use Rattle.orders.specs.Held.{session_of};
ghost use Rattle.orders.specs.Changes.{sound_ask, new_order, can_accept, accepted, can_trade, traded};

use crate::order::{
    Account, Ask, Event, LAST_MEMBER, LEAST_QUANTITY, Life, Line, MEMBERS, MOST_LINES, MOST_ORDERS,
    MOST_QUANTITY, Order, Side,
};
use crate::period::Period;
use crate::tables::Tables;
use ticks::tick::{HIGHEST, Tick};

impl Account {
    /// The account that a line is billed or credited to.
    fn charged(self, line: Line, period: u16) -> Account
        requires pays { self.pays + line.quantity * line.price * period < 2 ^ 64 }
        requires gets { self.gets + line.quantity * line.price * period < 2 ^ 64 }
        ensures { result ≡ charged period line self }
    {
        let worth = line.worth(period);
        match line.side {
            Side::Buy => Account {
                pays: self.pays + worth,
                ..self
            },
            Side::Sell => Account {
                gets: self.gets + worth,
                ..self
            },
        }
    }
}

impl Ask {
    // The questions about a place ask the same, each with its refusal: the tables take nobody's word for it.
    /// Whether what is asked for is within its bounds: member, limit and quantity.
    pub fn is_sound(self) -> bool
        ensures { result ≡ sound_ask self }
    {
        (1..=LAST_MEMBER).contains(&self.member)
            && self.limit <= HIGHEST
            && (LEAST_QUANTITY..=MOST_QUANTITY).contains(&self.quantity)
    }

    /// The standing order of the ask, with its number.
    fn numbered(self, number: u16) -> Order
        ensures { result ≡ new_order self number }
    {
        Order {
            number,
            member: self.member,
            side: self.side,
            kind: self.kind,
            limit: self.limit,
            placed: self.quantity,
            left: self.quantity,
            life: Life::Standing,
        }
    }
}

impl Tables {
    /// The tables of a session as it opens.
    pub fn open(period: Period) -> Tables
        ensures { session_of result ≡ opening period.quarters }
    {
        Tables {
            orders: [Order::NONE; MOST_ORDERS],
            count: 0,
            lines: [Line::NONE; MOST_LINES],
            made: 0,
            accounts: [Account::NONE; MEMBERS],
            period,
        }
    }

    // A slice, and no type of its own that keeps these facts: only a few functions, none of them public, ask for them, and each
    // would have to unwrap it.
    /// Every order ever numbered, by number.
    pub fn placed(&self) -> &[Order]
        ensures is { result.now ≡ (session_of self.now).orders }
        ensures sound { Sound result.now (length result.now) }
        ensures count { length result.now ≤ most_orders }
    {
        &self.orders[..self.count]
    }

    /// The lines of the latest call.
    pub fn lines(&self) -> &[Line]
        ensures is { result.now ≡ (session_of self.now).lines }
        ensures sound { SoundLines result.now (length result.now) }
        ensures count { length result.now ≤ most_lines }
    {
        &self.lines[..self.made]
    }

    /// The account of a member, an empty one past the last member.
    pub fn account(&self, member: u8) -> Account
        ensures { result ≡ account (session_of self.now).accounts member }
    {
        self.accounts
            .get(member as usize)
            .copied()
            .unwrap_or(Account::NONE)
    }

    /// A call begins: there are no lines yet.
    pub fn clear_lines(&mut self)
        ensures { session_of self.new ≡ cleared (session_of self.old) }
    {
        self.made = 0;
    }

    /// An event of the order at a place, none past the last order. Nothing else changes.
    pub fn apply(&mut self, place: usize, event: Event)
        ensures { session_of self.new ≡ with_orders (changed place event (session_of self.old).orders) (session_of self.old) }
    {
        // By place: after `get_mut` of an array a proof knows its length, and none of its elements.
        if place < self.count {
            self.orders[place] = self.orders[place].after(event);
        }
    }

    /// Whether the ask is within its bounds and a number is left to give.
    fn can_accept(&self, ask: Ask) -> bool
        ensures { result ≡ can_accept ask (session_of self.now) }
    {
        ask.is_sound() && self.count < MOST_ORDERS
    }

    /// One more order, standing, with the next number; none where it cannot be accepted.
    pub fn append(&mut self, ask: Ask) -> Option<u16>
        ensures answer { result ≡ (if can_accept ask (session_of self.old) then Some (suc (length (session_of self.old).orders)) else None) }
        ensures after { session_of self.new ≡ (if can_accept ask (session_of self.old) then accepted ask (session_of self.old) else session_of self.old) }
    {
        if !self.can_accept(ask) {
            return None;
        }
        Some(self.accept(ask))
    }

    /// The next number goes to a new standing order, at the next place.
    fn accept(&mut self, ask: Ask) -> u16
        requires room { self.old.count < most_orders }
        requires sound { sound_ask ask ≡ true }
        ensures number { result ≡ suc (length (session_of self.old).orders) }
        ensures after { session_of self.new ≡ accepted ask (session_of self.old) }
    {
        let number = self.count as u16 + 1;
        self.orders[self.count] = ask.numbered(number);
        self.count += 1;
        number
    }

    /// A trade of the order at a place: its line takes the quantity off it and is billed or credited to its member.
    /// It answers whether there was a trade: the order has that much standing, and there is room for the line.
    pub fn trade(&mut self, place: usize, quantity: u32, price: Tick) -> bool
        ensures answer { result ≡ can_trade place quantity (session_of self.old) }
        ensures after { session_of self.new ≡ (if result then traded place quantity price.value (session_of self.old) else session_of self.old) }
    {
        if !self.can_trade(place, quantity) {
            return false;
        }
        self.post(place, quantity, price);
        true
    }

    /// What the order at a place has standing, 0 past the last order.
    pub fn standing_at(&self, place: usize) -> u32
        ensures { result ≡ standing (at (session_of self.now).orders place) }
    {
        self.placed().get(place).map_or(0, |order| order.standing())
    }

    /// Whether the order has that much standing, and there is room for its line.
    fn can_trade(&self, place: usize, quantity: u32) -> bool
        ensures { result ≡ can_trade place quantity (session_of self.now) }
    {
        self.made < MOST_LINES && quantity > 0 && quantity <= self.standing_at(place)
    }

    /// The line of a trade fills its order, charges its member and stands last.
    fn post(&mut self, place: usize, quantity: u32, price: Tick)
        requires there { place < self.old.count }
        requires room { self.old.made < most_lines }
        requires some { 0 < quantity }
        requires enough { quantity ≤ standing (at self.old.orders place) }
        ensures { session_of self.new ≡ traded place quantity price.value (session_of self.old) }
    {
        let line = self.orders[place].line(quantity, price.value, self.made as u16);
        self.apply(place, Event::Fill(quantity));
        self.charge(line);
        self.push_line(line);
    }

    /// Bills or credits a line to its member. No other account changes.
    fn charge(&mut self, line: Line)
        requires member { line.member < member_places }
        requires pays { (account (session_of self.old).accounts line.member).pays + worth (session_of self.old).period line ≤ dearest * sum_by gone (session_of self.old).orders }
        requires gets { (account (session_of self.old).accounts line.member).gets + worth (session_of self.old).period line ≤ dearest * sum_by gone (session_of self.old).orders }
        ensures { session_of self.new ≡ with_charge line (session_of self.old) }
    {
        let member = line.member as usize;
        self.accounts[member] = self.accounts[member].charged(line, self.period.quarters);
    }

    /// One more line. The lines before it stay.
    fn push_line(&mut self, line: Line)
        requires room { length (session_of self.old).lines < most_lines }
        requires sound { sound_line line ≡ true }
        ensures { session_of self.new ≡ with_line line (session_of self.old) }
    {
        self.lines[self.made] = line;
        self.made += 1;
    }
}

/// Lines that are posted one by one, and then ranked, are settled.
pub fn lines_settle_one_by_one()
    ensures { SettledOneByOne }
{}
