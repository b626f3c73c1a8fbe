//! What a price rule sees: demand and supply at all ticks.
ghost use Rattle.std.specs.Prelude.{◌≡◌, suc, true, false, length, max, min};
ghost use Rattle.std.specs.List.{fold, zip};
ghost use Rattle.curves.specs.Crossing.{before};
ghost use Rattle.curves.specs.Curves.{curve, figures, volume};
ghost use Rattle.ticks.specs.Ticks.{highest_tick, Falls, Rises, IsVolume, summed, FiguresOfOrders};

use crate::tick::{TICKS, Tick};

// Two arrays, and none of pairs: the meaning of a price rule reads two lists.
/// Demand and supply at all ticks, always in order: demand falls and supply rises.
#[derive(Drop)]
pub struct Figures {
    demand: [u64; TICKS],
    supply: [u64; TICKS],
    volume: u64,
    ghost falls: { Falls demand },
    ghost rises: { Rises supply },
    ghost wide: { (length demand ≡ suc highest_tick) × (length supply ≡ suc highest_tick) },
    ghost greatest: { IsVolume demand supply volume },
}

impl Figures {
    /// The figures of what is wanted and what is offered at each limit: demand at a tick is all that is wanted at
    /// or above it, supply all that is offered at or below it.
    pub fn from_limits(wanted: &[u32; TICKS], offered: &[u32; TICKS]) -> Figures
        ensures demand { result.demand ≡ figures highest_tick (summed true wanted.now) }
        ensures supply { result.supply ≡ figures highest_tick (summed false offered.now) }
    {
        // Written in place: as results, both would be moved once more.
        let mut demand = [0; TICKS];
        let mut supply = [0; TICKS];
        falling(wanted, &mut demand);
        rising(offered, &mut supply);
        let volume = greatest_volume(&demand, &supply);
        Figures {
            demand,
            supply,
            volume,
        }
    }

    /// Demand at a tick.
    pub fn demand_at(&self, tick: Tick) -> u64
        ensures { result ≡ curve self.now.demand tick.value }
    {
        self.demand[tick.value as usize]
    }

    /// Supply at a tick.
    pub fn supply_at(&self, tick: Tick) -> u64
        ensures { result ≡ curve self.now.supply tick.value }
    {
        self.supply[tick.value as usize]
    }

    /// Demand a tick above, 0 past the highest.
    pub fn demand_above(&self, tick: Tick) -> u64
        ensures { result ≡ curve self.now.demand (suc tick.value) }
    {
        self.demand
            .get(tick.value as usize + 1)
            .copied()
            .unwrap_or(0)
    }

    /// Supply a tick below, 0 below tick 0.
    pub fn supply_below(&self, tick: Tick) -> u64
        ensures { result ≡ before (curve self.now.supply) tick.value }
    {
        (tick.value as usize)
            .checked_sub(1)
            .map_or(0, |below| self.supply[below])
    }

    /// V: the greatest executable volume of all ticks.
    pub fn volume(&self) -> u64
        ensures { result ≡ volume highest_tick (curve self.now.demand) (curve self.now.supply) }
    {
        self.volume
    }
}

/// The greatest executable volume of all ticks.
fn greatest_volume(demand: &[u64; TICKS], supply: &[u64; TICKS]) -> u64
    ensures { result ≡ fold (λ most p. max most (min p.0 p.1)) 0 (zip demand.now supply.now) }
{
    demand
        .iter()
        .zip(supply)
        .fold(0, |most, (demand, supply)| most.max(*demand.min(supply)))
}

/// Demand at all ticks: the sums from the highest limit down.
// Two loops for two directions: one function for both would turn the arrays round and back, which is no plainer; nor would an
// enumeration turned round be.
fn falling(wanted: &[u32; TICKS], demand: &mut [u64; TICKS])
    ensures { demand.new ≡ figures highest_tick (summed true wanted.now) }
{
    let mut sum = 0;
    for tick in (0..TICKS).rev() {
        sum += wanted[tick] as u64;
        demand[tick] = sum;
    }
}

/// Supply at all ticks: the sums from the lowest limit up.
fn rising(offered: &[u32; TICKS], supply: &mut [u64; TICKS])
    ensures { supply.new ≡ figures highest_tick (summed false offered.now) }
{
    let mut sum = 0;
    for (tick, offered) in offered.iter().enumerate() {
        sum += *offered as u64;
        supply[tick] = sum;
    }
}

/// Figures that are made from what stands at each limit are demand and supply of the orders.
pub fn figures_of_orders()
    ensures { FiguresOfOrders }
{}
