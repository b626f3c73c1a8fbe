//! A session of each kind by the contract's own rules, with a few calls on each.
ghost use Rattle.std.specs.Prelude.{◌≡◌};
ghost use Rattle.orders.specs.declared.order.Kind.TheVariants.{Normal};

use crate::words::{print_account, print_lines, print_placed, print_refusal};
use orders::order::{Ask, Kind, Side};
use own_rules::{LargerLeft, LowestClearing, SmallestFirst, ThirdOfTheWay};
use replay::{make, replay};
use session::auction::{Auction, PairedRules, UniformRules};
use session::batch::Taking;
use session::continuous::Continuous;
use session::opening::Opening;
use std::io;
use steps::call::{Call, OrderRef};

/// The members whose accounts are shown.
const SHOWN: u8 = 7;

/// A normal order.
fn normal(member: u8, side: Side, limit: u16, quantity: u32) -> Ask
    ensures { result ≡ record { member = member; side = side; kind = Normal; limit = limit; quantity = quantity } }
{
    Ask {
        member,
        side,
        kind: Kind::Normal,
        limit,
        quantity,
    }
}

/// Runs a round and shows it, with the accounts after it.
fn show_round<A: Auction + Drop>(rt: &HostRuntime, session: Taking<A>) -> io::Result<Taking<A>> {
    let awarded = session.shut().award();
    let (volume, price) = awarded.volume_and_price();
    let members = awarded.member_count();
    println!(rt; "volume {volume}, price {price}, members {members}")?;
    print_lines(rt, awarded.lines())?;
    let session = awarded.carry_over();
    for member in 1..=SHOWN {
        print_account(rt, member, session.account(member))?;
    }
    Ok(session)
}

/// A uniform session of two rounds.
pub fn uniform(rt: &HostRuntime, figures: Opening) -> io::Result<()> {
    println!(rt; "uniform")?;
    let rules = UniformRules::new(LowestClearing, SmallestFirst, figures.reference);
    let calls = [
        Call::Place(normal(1, Side::Buy, 50, 1_000)),
        Call::Place(normal(2, Side::Buy, 40, 600)),
        Call::Place(normal(3, Side::Buy, 40, 400)),
        Call::Place(normal(4, Side::Sell, 30, 1_200)),
        Call::Place(normal(5, Side::Sell, 20, 300)),
        Call::Withdraw(OrderRef {
            member: 5,
            number: 5,
        }),
        Call::Place(normal(6, Side::Sell, 45, 900)),
    ];
    let session = show_round(rt, replay(figures, rules, &calls))?;
    let session = make(session, Call::Place(normal(7, Side::Sell, 35, 500)));
    show_round(rt, session)?;
    Ok(())
}

/// A paired session of one round.
pub fn paired(rt: &HostRuntime, figures: Opening) -> io::Result<()> {
    println!(rt; "paired")?;
    let rules = PairedRules::<LargerLeft, ThirdOfTheWay>::new(ThirdOfTheWay);
    let calls = [
        Call::Place(normal(1, Side::Buy, 300, 500)),
        Call::Place(normal(2, Side::Buy, 300, 800)),
        Call::Place(normal(3, Side::Sell, 240, 600)),
        Call::Place(normal(4, Side::Sell, 270, 900)),
        Call::Place(normal(5, Side::Buy, 310, 400)),
        Call::Withdraw(OrderRef {
            member: 5,
            number: 5,
        }),
    ];
    show_round(rt, replay(figures, rules, &calls))?;
    Ok(())
}

/// A continuous session, by each place and its lines.
pub fn continuous(rt: &HostRuntime, figures: Opening) -> io::Result<()> {
    println!(rt; "continuous")?;
    let mut session = Continuous::<LargerLeft, ThirdOfTheWay>::open(figures, ThirdOfTheWay);
    let asks = [
        normal(1, Side::Sell, 270, 300),
        normal(2, Side::Sell, 270, 500),
        normal(3, Side::Buy, 300, 600),
        Ask {
            kind: Kind::FillOrKill,
            ..normal(4, Side::Buy, 269, 150)
        },
        Ask {
            kind: Kind::FillAndKill,
            ..normal(5, Side::Buy, 273, 300)
        },
        normal(7, Side::Buy, 250, 50),
        normal(6, Side::Buy, 250, 400),
    ];
    for ask in asks {
        let answer = session.place(ask);
        print_placed(rt, answer)?;
        if answer.is_ok() {
            print_lines(rt, session.lines())?;
        }
    }
    let order = OrderRef {
        member: 6,
        number: 6,
    };
    match session.withdraw(order) {
        Ok(left) => println!(rt; "order 6 withdrawn: {left}")?,
        Err(refusal) => print_refusal(rt, refusal)?,
    }
    for member in 1..=SHOWN {
        print_account(rt, member, session.account(member))?;
    }
    Ok(())
}
