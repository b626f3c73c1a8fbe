//! A contract that brings its own rules, and asks each of them once.
#![tactic(auto)]

use own_rules::show::show_rules;
use std::io;

fn main(rt: HostRuntime) -> io::Result<()> {
    show_rules(&rt)
}
