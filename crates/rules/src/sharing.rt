//! How an amount is shared in a group of equal limits.
ghost use Rattle.std.specs.Prelude.{◌≡◌, ◌^◌, ◌<◌, ◌≤◌, sum};
ghost use Rattle.curves.specs.Sharing.{SharingMeaning, SharingLaw};
ghost use Rattle.rules.specs.Sharing.{earliest_first, largest_first, part, remainder, unit, pro_rata, FilledFirst, UnitsFirst};
ghost use Rattle.rules.specs.Quotas.{earliest_law, largest_law, part_within, pro_rata_law};

use turns::{ByKey, Turns, share_by_key, share_by_turns, sure_total};

/// Shares an amount in a group, from its left quantities, earliest first.
pub trait SharingRule {
    ghost meaning: { SharingMeaning };

    /// Writes the shares over the quantities.
    fn share(&self, amount: u64, group: &mut [u32])
        ensures { group.new ≡ meaning amount group.old };

    ghost shares: { SharingLaw meaning };
}

// Written for each rule by a key, and not once for all: such a rule may share in another way.
/// The earliest first.
#[derive(Clone, Copy)]
pub struct EarliestFirst;

impl ByKey for EarliestFirst {
    ghost key = { λ t q. 0 };

    fn key(&self, quantity: u32) -> u128 {
        0
    }
}

impl SharingRule for EarliestFirst {
    ghost meaning = { earliest_first };

    ghost shares = { earliest_law };

    fn share(&self, amount: u64, group: &mut [u32]) {
        share_by_key(self, amount, group);
    }
}

/// The largest first, then the earlier.
#[derive(Clone, Copy)]
pub struct LargestFirst;

impl ByKey for LargestFirst {
    ghost key = { λ t q. q };

    fn key(&self, quantity: u32) -> u128 {
        u128::from(quantity)
    }
}

impl SharingRule for LargestFirst {
    ghost meaning = { largest_first };

    ghost shares = { largest_law };

    fn share(&self, amount: u64, group: &mut [u32]) {
        share_by_key(self, amount, group);
    }
}

/// An amount and the total of the group that it is shared in.
#[derive(Clone, Copy)]
struct Quota {
    amount: u128,
    whole: u128,
    ghost within: { amount ≤ whole },
    ghost some: { 0 < whole },
    ghost fits: { amount < 2 ^ 64 },
}

impl Turns for Quota {
    ghost sure = { λ t q. part t.amount t.whole q };

    ghost key = { λ t q. remainder t.amount t.whole q };

    ghost claim = { λ t q. unit t.amount t.whole q };

    ghost within = { λ quota q. part_within quota.amount quota.whole q quota.within };

    fn sure(&self, quantity: u32) -> u32 {
        (quantity as u128 * self.amount / self.whole) as u32
    }

    fn key(&self, quantity: u32) -> u128 {
        quantity as u128 * self.amount % self.whole
    }

    fn claim(&self, quantity: u32) -> u32 {
        u32::from(self.key(quantity) > 0)
    }
}

/// The total of a group.
fn total(group: &[u32]) -> u128
    ensures { result ≡ sum group.now }
{
    group.iter().map(|quantity| *quantity as u128).sum()
}

/// In proportion to the quantities, rounded down; the units left over by the largest remainder, then the earlier.
#[derive(Clone, Copy)]
pub struct ProRata;

impl SharingRule for ProRata {
    ghost meaning = { pro_rata };

    ghost shares = { pro_rata_law };

    fn share(&self, amount: u64, group: &mut [u32]) {
        let whole = total(group);
        if whole == 0 {
            return;
        }
        let amount = (amount as u128).min(whole);
        let quota = Quota { amount, whole };
        let left_over = amount - sure_total(&quota, group);
        share_by_turns(&quota, left_over, group);
    }
}

/// The turns are kept: where an order gets anything, those before it are filled; where it gets a unit of what pro rata
/// leaves over, so do those before it.
pub fn turns_are_kept()
    ensures earliest { FilledFirst (λ q. 0) earliest_first }
    ensures largest { FilledFirst (λ q. q) largest_first }
    ensures units { UnitsFirst }
{}
