//! A contract that brings its own rules, and runs a session of each kind by them.
#![tactic(auto)]

mod sessions;
mod theorems;
mod words;

use orders::period::Period;
use own_rules::show::show_rules;
use session::opening::Opening;
use std::io;
use ticks::tick::Tick;

fn main(rt: HostRuntime) -> io::Result<()> {
    show_rules(&rt)?;
    let figures = Opening {
        period: Period { quarters: 2 },
        reference: Tick { value: 45 },
    };
    sessions::uniform(&rt, figures)?;
    sessions::paired(&rt, figures)?;
    sessions::continuous(&rt, figures)
}
