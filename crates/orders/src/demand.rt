//! Demand and supply of the orders.
ghost use Rattle.std.specs.Prelude.{◌≡◌};
ghost use Rattle.curves.specs.Curves.{figures};
ghost use Rattle.curves.specs.Orders.{willing, demand, supply};
ghost use Rattle.ticks.specs.Ticks.{highest_tick, at_limit};
ghost use Rattle.orders.specs.Orders.{buys, bid_of, bids_of};
ghost use Rattle.orders.specs.Held.{session_of};
ghost use Rattle.orders.specs.Willing.{willing_at, standing_on};

use crate::order::{Order, Side};
use crate::tables::Tables;
use ticks::figures::Figures;
use ticks::tick::{TICKS, Tick};

impl Order {
    /// What the order adds to its side at a tick: what stands of it, where it is on the side and its limit is kept.
    fn willing(self, side: Side, tick: Tick) -> u32
        ensures { result ≡ willing_at (buys side) tick.value (bid_of self) }
    {
        match side {
            Side::Buy if tick.value <= self.limit => self.standing_on(side),
            Side::Sell if self.limit <= tick.value => self.standing_on(side),
            _ => 0,
        }
    }

    /// What stands of the order, where it is on the side.
    fn standing_on(self, side: Side) -> u32
        ensures { result ≡ standing_on (buys side) (bid_of self) }
    {
        if self.side == side {
            self.standing()
        } else {
            0
        }
    }
}

impl Tables {
    /// All that stands on a side whose limit is kept at a tick.
    pub fn willing(&self, side: Side, tick: Tick) -> u32
        ensures { result ≡ willing (buys side) (bids_of (session_of self.now).orders) tick.value }
    {
        // A loop, and no `sum`: the loop's invariant shows that the sum does not overflow.
        let mut sum = 0;
        for order in self.placed() {
            sum += order.willing(side, tick);
        }
        sum
    }

    // Two words for one text, `willing`, as the definitions have two.
    /// Demand at a tick.
    pub fn demand_at(&self, tick: Tick) -> u32
        ensures { result ≡ demand highest_tick (bids_of (session_of self.now).orders) tick.value }
    {
        self.willing(Side::Buy, tick)
    }

    /// Supply at a tick.
    pub fn supply_at(&self, tick: Tick) -> u32
        ensures { result ≡ supply highest_tick (bids_of (session_of self.now).orders) tick.value }
    {
        self.willing(Side::Sell, tick)
    }

    /// What stands at each limit on a side.
    pub fn at_limits(&self, side: Side) -> [u32; TICKS]
        ensures { result ≡ figures highest_tick (at_limit (buys side) (bids_of (session_of self.now).orders)) }
    {
        let mut quantities = [0; TICKS];
        for order in self.placed() {
            quantities[order.limit as usize] += order.standing_on(side);
        }
        quantities
    }

    /// Demand and supply at all ticks, by one pass over the orders for each side and one over the ticks.
    pub fn figures(&self) -> Figures
        ensures demand { result.demand ≡ figures highest_tick (demand highest_tick (bids_of (session_of self.now).orders)) }
        ensures supply { result.supply ≡ figures highest_tick (supply highest_tick (bids_of (session_of self.now).orders)) }
    {
        Figures::from_limits(&self.at_limits(Side::Buy), &self.at_limits(Side::Sell))
    }
}
