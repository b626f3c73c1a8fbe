//! How the rounds of a batch session trade.
ghost use Rattle.std.specs.Prelude.{◌≡◌, false};
ghost use Rattle.orders.specs.Settlement.{settled};
ghost use Rattle.orders.specs.Held.{session_of};
ghost use Rattle.pairing.specs.Quotes.{pairs_of};
ghost use Rattle.steps.specs.Ways.{Paired as PairedWay, Uniform as UniformWay};
ghost use Rattle.steps.specs.Ways.{Way, Laws, is_continuous, round_lines, round_volume, round_price};

use orders::tables::Tables;
use pairing::pair;
use ranking::{OrderQuote, Quote, Ranked, Ranking};
use rules::pair::PairPrice;
use rules::price::PriceRule;
use rules::sharing::SharingRule;
use std::marker::PhantomData;
use ticks::tick::Tick;
use uniform::clear;

/// The rules of a batch session, whose orders trade in rounds.
pub trait Auction {
    ghost way: { Self → Way };

    // A clause, and no law: a law would ask it of every number, and not only of those that the fields of the rules can hold.
    /// Does nothing, and promises that the rules keep their laws and trade in rounds only.
    fn vouch(&self)
        ensures laws { Laws (way self.now) }
        ensures batch { is_continuous (way self.now) ≡ false };

    // A pair; price 0 is what the sheet shows where nothing trades, and in a paired round.
    /// Settles the lines of a round, and answers its volume and its price.
    fn settle(&self, tables: &mut Tables) -> (u64, u16)
        ensures volume { result.0 ≡ round_volume (way self.now) (session_of tables.old).orders }
        ensures price { result.1 ≡ round_price (way self.now) (session_of tables.old).orders }
        ensures after { session_of tables.new ≡ settled (round_lines (way self.now) (session_of tables.old).orders) (session_of tables.old) };
}

/// The rules of a paired or a continuous session: its pair price, and the ranking `R`.
#[derive(Drop)]
pub struct PairedRules<R, P> {
    pub(crate) price: P,
    ranking: PhantomData<R>,
}

impl<R: Ranking, P: PairPrice> PairedRules<R, P> {
    /// Pairing at this price.
    pub fn new(price: P) -> PairedRules<R, P>
        ensures { result.price ≡ price }
    {
        PairedRules {
            price,
            ranking: PhantomData,
        }
    }
}

impl<R: Ranking, P: PairPrice> Auction for PairedRules<R, P> {
    ghost way = { λ _. PairedWay (pairs_of R.Buy.Ranked.ahead R.Buy.OrderQuote.made R.Sell.Ranked.ahead R.Sell.OrderQuote.made P.PairPrice.meaning) };

    fn vouch(&self) {}

    fn settle(&self, tables: &mut Tables) -> (u64, u16) {
        (pair::<R, P>(tables, &self.price), 0)
    }
}

/// The rules of a uniform session: its price rule, its sharing rule, and the reference price.
#[derive(Drop)]
pub struct UniformRules<P, S> {
    price: P,
    sharing: S,
    reference: Tick,
}

impl<P: PriceRule, S: SharingRule> UniformRules<P, S> {
    /// Rounds by these rules, with this reference price.
    pub fn new(price: P, sharing: S, reference: Tick) -> UniformRules<P, S>
        ensures { result.reference.value ≡ reference.value }
    {
        UniformRules {
            price,
            sharing,
            reference,
        }
    }
}

impl<P: PriceRule, S: SharingRule> Auction for UniformRules<P, S> {
    ghost way = { λ u. UniformWay P.PriceRule.meaning S.SharingRule.meaning u.reference.value };

    fn vouch(&self) {}

    fn settle(&self, tables: &mut Tables) -> (u64, u16) {
        clear(tables, &self.price, &self.sharing, self.reference)
    }
}
