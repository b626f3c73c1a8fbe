//! Says in plain words what the order book on standard input holds, or which question it fails.
#![tactic(auto)]

use book::enough;
use listing::listing;
use std::io::Read;

fn run(rt: &HostRuntime) -> anyhow::Result<()> {
    let mut bytes = Vec::new(rt.alloc());
    rt.stdin().take(enough()).read_to_end(&mut bytes)?;
    let text = listing(rt.alloc(), bytes.as_slice())?;
    rt.write_all(text.as_bytes())?;
    Ok(())
}

fn main(rt: HostRuntime) -> anyhow::Result<()> {
    run(&rt)
}
