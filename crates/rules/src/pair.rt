//! The price of a pair.
ghost use Rattle.std.specs.Prelude.{◌≡◌};
ghost use Rattle.rules.specs.Pairs.{PairMeaning, PairLaw, buyers_price, sellers_price, half_the_sum, earlier_orders_price};
ghost use Rattle.std.proofs.Common.{rules};

use ticks::tick::Tick;

/// Prices a pair, from both limits and which order is the earlier.
pub trait PairPrice {
    ghost meaning: { PairMeaning };

    // Three plain parameters, as the meaning has them; contracts write their own rules in this form.
    /// The price: the rule's meaning of the limits of the buy and the sell, and of which is the earlier.
    fn price(&self, buy: Tick, sell: Tick, buy_is_earlier: bool) -> Tick
        ensures { result.value ≡ meaning buy.value sell.value buy_is_earlier };

    ghost between: { PairLaw meaning };
}

/// The buyer's limit.
#[derive(Clone, Copy)]
pub struct BuyersPrice;

impl PairPrice for BuyersPrice {
    ghost meaning = { buyers_price };

    ghost between = { Prim.search rules };

    fn price(&self, buy: Tick, sell: Tick, buy_is_earlier: bool) -> Tick {
        buy
    }
}

/// The seller's limit.
#[derive(Clone, Copy)]
pub struct SellersPrice;

impl PairPrice for SellersPrice {
    ghost meaning = { sellers_price };

    ghost between = { Prim.search rules };

    fn price(&self, buy: Tick, sell: Tick, buy_is_earlier: bool) -> Tick {
        sell
    }
}

/// Half the sum of the limits; a half tick rounds up.
#[derive(Clone, Copy)]
pub struct HalfTheSum;

impl PairPrice for HalfTheSum {
    ghost meaning = { half_the_sum };

    ghost between = { Prim.search rules };

    fn price(&self, buy: Tick, sell: Tick, buy_is_earlier: bool) -> Tick {
        Tick::halfway(buy, sell)
    }
}

/// The limit of the earlier order.
#[derive(Clone, Copy)]
pub struct EarlierOrders;

impl PairPrice for EarlierOrders {
    ghost meaning = { earlier_orders_price };

    ghost between = { Prim.search rules };

    fn price(&self, buy: Tick, sell: Tick, buy_is_earlier: bool) -> Tick {
        if buy_is_earlier { buy } else { sell }
    }
}
