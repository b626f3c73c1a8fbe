//! Batch sessions: taking orders, shut, awarded. A state allows only its own calls, so each is a type of its own, which
//! the call that leaves it consumes.
ghost use Rattle.std.specs.Prelude.{◌≡◌, false};
ghost use Rattle.orders.specs.Members.{distinct_members};
ghost use Rattle.orders.specs.Settlement.{Session, opening};
ghost use Rattle.orders.specs.Held.{session_of};
ghost use Rattle.steps.specs.declared.call.Outcome.{Outcome as Result-of};
ghost use Rattle.history.specs.Fairness.{Fair};
ghost use Rattle.session.specs.Awards.{outcome_of};
ghost use Rattle.steps.specs.Calls.{round, demand_at, supply_at};

use crate::auction::Auction;
use crate::market::{Market, ShowsLines, TakesOrders, TakingState};
use crate::opening::Opening;
use orders::tables::Tables;
use steps::call::Outcome;
use steps::refusal::Refusal;
use ticks::tick::Tick;

/// The state of a session that takes orders.
#[derive(Clone, Copy)]
pub struct Open;

/// The state of a session that takes no more orders.
#[derive(Clone, Copy)]
pub struct Closed;

/// The state of a session whose round is awarded: the volume and the price of the round.
#[derive(Clone, Copy)]
pub struct Award {
    volume: u64,
    price: u16,
}

impl<A: Auction> TakesOrders<A> for Open {
    ghost way = { λ auction. A.Auction.way auction };

    ghost at_once = { false };

    fn is_continuous(rules: &A) -> bool {
        rules.vouch();
        false
    }

    fn trade(rules: &A, tables: &mut Tables) {
        rules.vouch();
        tables.clear_lines();
    }
}

impl TakingState for Open {}

impl ShowsLines for Open {}

impl ShowsLines for Award {}

/// A session that takes orders.
pub type Taking<A> = Market<A, Open>;

/// A session that is shut: its demand and supply can be seen.
pub type Shut<A> = Market<A, Closed>;

/// A session whose round is awarded: its lines can be seen.
pub type Awarded<A> = Market<A, Award>;

impl<A: Auction> Market<A, Open> {
    /// An empty session of these rules.
    pub fn open(figures: Opening, auction: A) -> Taking<A>
        ensures session { session_of result.tables ≡ opening figures.period.quarters }
        ensures rules { result.rules ≡ auction }
    {
        Market::opened(figures, auction, Open)
    }

    /// A round in one call, in place: shut, awarded and carried over. Its lines can be seen until the next accepted call.
    pub fn round(&mut self) -> Outcome
        ensures round { ◌≡◌ {A = Result-of × Session} (result, session_of self.new.tables) (round (A.Auction.way self.old.rules) (session_of self.old.tables)) }
        ensures fair { Fair (A.Auction.way self.old.rules) (session_of self.old.tables) (result, session_of self.new.tables) }
        ensures rules { self.new.rules ≡ self.old.rules }
    {
        self.rules.vouch();
        let tables = &mut self.tables;
        let (volume, price) = self.rules.settle(tables);
        Outcome {
            volume,
            price,
            members: tables.member_count(),
        }
    }

    /// Takes no more orders.
    pub fn shut(self) -> Shut<A>
        ensures session { session_of result.tables ≡ session_of self.tables }
        ensures rules { result.rules ≡ self.rules }
    {
        self.into_state(Closed)
    }
}

impl<A: Auction> Market<A, Closed> {
    // Two calls of two lines each: one with the side as a parameter would be no shorter.
    /// Demand at a tick.
    pub fn demand_at(&self, tick: u16) -> Result<u32, Refusal>
        ensures { result ≡ demand_at tick (session_of self.now.tables) }
    {
        let tick = Tick::new(tick).ok_or(Refusal::Limit)?;
        Ok(self.tables.demand_at(tick))
    }

    /// Supply at a tick.
    pub fn supply_at(&self, tick: u16) -> Result<u32, Refusal>
        ensures { result ≡ supply_at tick (session_of self.now.tables) }
    {
        let tick = Tick::new(tick).ok_or(Refusal::Limit)?;
        Ok(self.tables.supply_at(tick))
    }

    /// The round: the orders trade by the session's rules, fairly.
    pub fn award(self) -> Awarded<A>
        ensures round { ◌≡◌ {A = Result-of × Session} (outcome_of result, session_of result.tables) (round (A.Auction.way self.rules) (session_of self.tables)) }
        ensures fair { Fair (A.Auction.way self.rules) (session_of self.tables) (outcome_of result, session_of result.tables) }
        ensures rules { result.rules ≡ self.rules }
    {
        let mut session = self;
        session.rules.vouch();
        let (volume, price) = session.rules.settle(&mut session.tables);
        session.into_state(Award { volume, price })
    }
}

impl<A: Auction> Market<A, Award> {
    /// The volume of the round and its price, 0 where nothing traded.
    pub fn volume_and_price(&self) -> (u64, u16)
        ensures { result ≡ (self.now.state.volume, self.now.state.price) }
    {
        (self.state.volume, self.state.price)
    }

    /// How many members have lines.
    pub fn member_count(&self) -> u32
        ensures { result ≡ distinct_members (session_of self.now.tables).lines }
    {
        self.tables.member_count()
    }

    /// Takes orders again; what is left of the orders, and the accounts, stay.
    pub fn carry_over(self) -> Taking<A>
        ensures session { session_of result.tables ≡ session_of self.tables }
        ensures rules { result.rules ≡ self.rules }
    {
        self.into_state(Open)
    }
}
