//! Each of the rules, asked once.
use crate::{LargerLeft, LowestClearing, SmallestFirst, ThirdOfTheWay};
use ranking::OrderFields;
use ranking::orders::{Buying, LimitQuote, best_order};
use rules::pair::PairPrice;
use rules::price::PriceRule;
use rules::sharing::SharingRule;
use std::io;
use ticks::figures::Figures;
use ticks::tick::{TICKS, Tick};

/// The price of a buy of 1,000 at 50 and a sell of 1,000 at 30.
fn price_of_one_pair() -> u16 {
    let mut wanted = [0u32; TICKS];
    let mut offered = [0u32; TICKS];
    wanted[50] = 1000;
    offered[30] = 1000;
    let figures = Figures::from_limits(&wanted, &offered);
    LowestClearing.price(&figures, Tick { value: 0 }).value()
}

/// The place of the best of three buys, two of which have one limit.
fn best_of_three() -> Option<usize> {
    let orders = [
        OrderFields {
            number: 1,
            limit: 280,
            placed: 900,
            left: 900,
        },
        OrderFields {
            number: 2,
            limit: 300,
            placed: 900,
            left: 500,
        },
        OrderFields {
            number: 3,
            limit: 300,
            placed: 800,
            left: 800,
        },
    ];
    best_order::<LimitQuote<Buying, LargerLeft>>(&orders)
}

/// What each rule answers once.
pub fn show_rules(rt: &HostRuntime) -> io::Result<()> {
    let price = price_of_one_pair();
    println!(rt; "price {price}")?;
    let mut group = [10_000, 20_000, 5_000];
    SmallestFirst.share(20_000, &mut group);
    let [first, second, third] = group;
    println!(rt; "shares {first} {second} {third}")?;
    let pair = ThirdOfTheWay
        .price(Tick { value: 300 }, Tick { value: 240 }, true)
        .value();
    println!(rt; "pair price {pair}")?;
    if let Some(place) = best_of_three() {
        println!(rt; "best buy at place {place}")?;
    }
    Ok(())
}
