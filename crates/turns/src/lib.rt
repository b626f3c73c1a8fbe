//! Sharing by turns, in place: one text for every rule that goes by a key, then earlier.
#![tactic(auto)]

ghost use Rattle.std.specs.Prelude.{◌≡◌, ℕ, ◌+◌, ◌<◌, ◌≤◌, length, sum_by, nat_lt, filter};
ghost use Rattle.std.proofs.Common.{rules};
ghost use Rattle.turns.specs.Turns.{of_place, by_turns, by_key, claims_above, RunsOut, got};

/// What a place of a group gets by its quantity: a sure part, and a claim in the turn that its key gives it, the larger
/// key first.
pub trait Turns {
    ghost sure: { Self → ℕ → ℕ };

    ghost key: { Self → ℕ → ℕ };

    ghost claim: { Self → ℕ → ℕ };

    /// What the place gets in any case.
    fn sure(&self, quantity: u32) -> u32
        ensures { result ≡ sure self.now quantity };

    /// What its turn goes by.
    fn key(&self, quantity: u32) -> u128
        ensures { result ≡ key self.now quantity };

    /// The most that it gets in its turn.
    fn claim(&self, quantity: u32) -> u32
        ensures { result ≡ claim self.now quantity };

    ghost within: { (turns : Self) (q : ℕ) → sure turns q + claim turns q ≤ q };
}

/// Turns that go by a key alone, the larger key first: each place claims its whole quantity.
pub trait ByKey {
    ghost key: { Self → ℕ → ℕ };

    /// What the turn of a place goes by.
    fn key(&self, quantity: u32) -> u128
        ensures { result ≡ key self.now quantity };
}

/// What goes by a key alone has nothing for sure.
impl<K: ByKey> Turns for K {
    ghost sure = { λ t q. 0 };

    ghost key = { λ t q. K.ByKey.key t q };

    ghost claim = { λ t q. q };

    ghost within = { Prim.search rules };

    fn sure(&self, quantity: u32) -> u32 {
        0
    }

    fn key(&self, quantity: u32) -> u128 {
        ByKey::key(self, quantity)
    }

    fn claim(&self, quantity: u32) -> u32 {
        quantity
    }
}

/// The sure parts of a group together.
pub fn sure_total<T: Turns>(turns: &T, group: &[u32]) -> u128
    ensures { result ≡ sum_by (T.Turns.sure turns.now) group.now }
{
    group
        .iter()
        .map(|quantity| turns.sure(*quantity) as u128)
        .sum()
}

/// A key that no place of the group exceeds.
fn greatest_key<T: Turns>(turns: &T, group: &[u32]) -> u128
    ensures { (k : ℕ) → k < length group.now → of_place (T.Turns.key turns.now) group.now k ≤ result }
{
    group
        .iter()
        .map(|quantity| turns.key(*quantity))
        .max()
        .unwrap_or(0)
}

/// What the places with a key above `level` claim.
fn claimed_above<T: Turns>(turns: &T, level: u128, group: &[u32]) -> u128
    ensures { result ≡ sum_by (T.Turns.claim turns.now) (filter (λ q. nat_lt level (T.Turns.key turns.now q)) group.now) }
{
    group
        .iter()
        .filter(|quantity| turns.key(**quantity) > level)
        .map(|quantity| turns.claim(*quantity) as u128)
        .sum()
}

/// The key at which the amount runs out, found by halving.
#[tactic(auto, using(crate::proofs::Shares::above_kept, crate::proofs::Shares::none_above))]
fn level_of<T: Turns>(turns: &T, amount: u128, group: &[u32]) -> u128
    ensures { RunsOut (length group.now) (of_place (T.Turns.key turns.now) group.now) (of_place (T.Turns.claim turns.now) group.now) amount result }
{
    let mut low = 0;
    let mut high = greatest_key(turns, group);
    while low < high {
        let middle = low + (high - low) / 2;
        if claimed_above(turns, middle, group) <= amount {
            high = middle;
        } else {
            low = middle + 1;
        }
    }
    low
}

/// What a place gets, where the amount runs out at `level` and `spare` is left for the rest of that key.
fn part_of<T: Turns>(turns: &T, quantity: u32, level: u128, spare: u128) -> u32
    ensures { result ≡ got (T.Turns.key turns.now) (T.Turns.claim turns.now) level spare quantity }
{
    let (key, claim) = (turns.key(quantity), turns.claim(quantity));
    if key > level {
        claim
    } else if key == level {
        spare.min(claim as u128) as u32
    } else {
        0
    }
}

/// Shares the amount in turn, and writes the shares over the quantities.
#[tactic(auto, using(crate::proofs::Shares::above_kept))]
pub fn share_by_turns<T: Turns>(turns: &T, amount: u128, group: &mut [u32])
    ensures { group.new ≡ by_turns (T.Turns.sure turns.now) (T.Turns.key turns.now) (T.Turns.claim turns.now) amount group.old }
{
    let level = level_of(turns, amount, group);
    let mut spare = amount - claimed_above(turns, level, group);
    for quantity in group.iter_mut() {
        let part = part_of(turns, *quantity, level, spare);
        if turns.key(*quantity) == level {
            spare -= part as u128;
        }
        *quantity = turns.sure(*quantity) + part;
    }
}

/// Shares the amount by a key, and writes the shares over the quantities.
pub fn share_by_key<K: ByKey>(by: &K, amount: u64, group: &mut [u32])
    ensures { group.new ≡ by_key (K.ByKey.key by.now) amount group.old }
{
    share_by_turns(by, u128::from(amount), group);
}
