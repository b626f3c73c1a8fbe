//! Lines, accounts and answers in words. Functions, and no `Display`: the types are other crates', and the words are this program's.
use orders::order::{Account, Line, Side};
use std::io;
use steps::call::Acceptance;
use steps::refusal::Refusal;

fn side_word(side: Side) -> &'static str {
    match side {
        Side::Buy => "buy",
        Side::Sell => "sell",
    }
}

pub fn print_lines(rt: &HostRuntime, lines: &[Line]) -> io::Result<()> {
    for line in lines {
        let side = side_word(line.side);
        let Line {
            order,
            member,
            quantity,
            price,
            ..
        } = *line;
        println!(rt; "{side} order {order}, member {member}: {quantity} at {price}")?;
    }
    Ok(())
}

/// An account, unless nothing is in it.
pub fn print_account(
    rt: &HostRuntime,
    member: u8,
    account: Result<Account, Refusal>,
) -> io::Result<()> {
    if let Ok(Account { pays, gets }) = account {
        if pays > 0 || gets > 0 {
            println!(rt; "member {member} pays {pays}, gets {gets}")?;
        }
    }
    Ok(())
}

pub fn print_refusal(rt: &HostRuntime, refusal: Refusal) -> io::Result<()> {
    let question = refusal.number();
    println!(rt; "refused: question {question}")
}

pub fn print_placed(rt: &HostRuntime, answer: Result<Acceptance, Refusal>) -> io::Result<()> {
    match answer {
        Ok(Acceptance { number, killed }) => println!(rt; "order {number} placed, {killed} killed"),
        Err(refusal) => print_refusal(rt, refusal),
    }
}
