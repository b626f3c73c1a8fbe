//! A session as it runs, whatever its rules: its tables, its rules, and the state that says which calls it takes.
ghost use Rattle.std.specs.Prelude.{◌≡◌, ℕ, Bool, false, [], length, Result as Answers, OnOk};
ghost use Rattle.orders.specs.Kept.{SoundLines};
ghost use Rattle.orders.specs.Settlement.{Session, opening, settled};
ghost use Rattle.orders.specs.Held.{session_of};
ghost use Rattle.steps.specs.declared.refusal.Refusal.{Refusal as Why};
ghost use Rattle.steps.specs.declared.call.Acceptance.{Acceptance as Accepting};
ghost use Rattle.steps.specs.Ways.{Way, Laws, is_continuous, place_lines};
ghost use Rattle.steps.specs.Calls.{place, withdraw, status, account_of, line_at};

use crate::desk;
use crate::opening::Opening;
use orders::order::{Account, Ask, Line};
use orders::tables::Tables;
use steps::call::{Acceptance, OrderRef, Status};
use steps::refusal::Refusal;

/// A session of the rules `W`, in the state `S`.
#[derive(Drop)]
pub struct Market<W, S> {
    pub(crate) tables: Tables,
    pub(crate) rules: W,
    pub(crate) state: S,
}

/// The states of this crate that take orders: no other crate can make a state take them.
pub(crate) trait TakingState {}

/// A state in which orders are placed and withdrawn, under the rules `W`.
pub trait TakesOrders<W>: TakingState {
    ghost way: { W → Way };

    ghost at_once: { Bool };

    // A flag: of the questions about a place, only that about the order's kind differs between sessions.
    /// Whether orders trade as they are placed, which the state alone says. The rules keep their laws.
    fn is_continuous(rules: &W) -> bool
        ensures is { result ≡ is_continuous (way rules.now) }
        ensures state { result ≡ at_once }
        ensures laws { Laws (way rules.now) };

    /// Settles the lines that the newest order makes.
    fn trade(rules: &W, tables: &mut Tables)
        ensures { session_of tables.new ≡ settled (place_lines (way rules.now) (session_of tables.old).orders) (session_of tables.old) };
}

/// A state in which the lines of the latest call can be seen.
pub trait ShowsLines {}

impl<W, S> Market<W, S> {
    /// An empty session.
    pub(crate) fn opened(figures: Opening, rules: W, state: S) -> Market<W, S>
        ensures session { session_of result.tables ≡ opening figures.period.quarters }
        ensures rules { result.rules ≡ rules }
    {
        Market {
            tables: Tables::open(figures.period),
            rules,
            state,
        }
    }

    /// Whether a member's order stands, and what it has left.
    pub fn status(&self, order: OrderRef) -> Result<Status, Refusal>
        ensures { result ≡ status order.member order.number (session_of self.now.tables) }
    {
        desk::status(&self.tables, order)
    }

    /// What a member pays and gets so far.
    pub fn account(&self, member: u8) -> Result<Account, Refusal>
        ensures { result ≡ account_of member (session_of self.now.tables) }
    {
        desk::account(&self.tables, member)
    }
}

impl<W, S: Drop> Market<W, S> {
    /// The same session in another state.
    pub(crate) fn into_state<T>(self, state: T) -> Market<W, T>
        ensures tables { result.tables ≡ self.tables }
        ensures rules { result.rules ≡ self.rules }
        ensures state { result.state ≡ state }
    {
        let Market {
            tables,
            rules,
            state: _,
        } = self;
        Market {
            tables,
            rules,
            state,
        }
    }
}

impl<W, S: TakesOrders<W>> Market<W, S> {
    /// Places an order: its number, and what of it was killed. In a continuous session it trades at once as far as it may;
    /// in a batch session nothing trades yet.
    pub fn place(&mut self, ask: Ask) -> Result<Acceptance, Refusal>
        ensures lines { OnOk result (is_continuous (S.TakesOrders.way self.old.rules) ≡ false → (session_of self.new.tables).lines ≡ []) }
        ensures batch { OnOk result (S.TakesOrders.at_once ≡ false → (session_of self.new.tables).lines ≡ []) }
        ensures answer { ◌≡◌ {A = Answers Accepting Why × Session} (result, session_of self.new.tables) (place (S.TakesOrders.way self.old.rules) ask (session_of self.old.tables)) }
        ensures rules { self.new.rules ≡ self.old.rules }
    {
        let number = desk::enter(&mut self.tables, ask, S::is_continuous(&self.rules))?;
        // Asked behind the questions, so that a refused ask costs no look at the orders: its own stands on the other side.
        let trades = desk::may_trade(&self.tables, ask);
        if trades {
            S::trade(&self.rules, &mut self.tables);
        }
        let killed = desk::close(&mut self.tables, ask.kind, number as usize - 1);
        Ok(Acceptance { number, killed })
    }

    /// Withdraws an order: the quantity that was taken out.
    pub fn withdraw(&mut self, order: OrderRef) -> Result<u32, Refusal>
        ensures answer { ◌≡◌ {A = Answers ℕ Why × Session} (result, session_of self.new.tables) (withdraw order.member order.number (session_of self.old.tables)) }
        ensures rules { self.new.rules ≡ self.old.rules }
    {
        desk::withdraw(&mut self.tables, order)
    }
}

impl<W, S: ShowsLines> Market<W, S> {
    /// The lines of the latest round, or of the latest accepted place or withdrawal; a withdrawal has none.
    pub fn lines(&self) -> &[Line]
        ensures is { result.now ≡ (session_of self.now.tables).lines }
        ensures sound { SoundLines result.now (length result.now) }
    {
        self.tables.lines()
    }

    /// How many lines these are.
    pub fn line_count(&self) -> usize
        ensures { result ≡ length (session_of self.now.tables).lines }
    {
        self.tables.lines().len()
    }

    /// The line at a place, counted from 0.
    pub fn line(&self, index: usize) -> Result<Line, Refusal>
        ensures { result ≡ line_at index (session_of self.now.tables) }
    {
        desk::line(&self.tables, index)
    }
}
