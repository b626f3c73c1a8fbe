//! Writes the sheet of the order book on standard input, whole.
#![tactic(auto)]

use book::enough;
use sheets::sheet;
use std::io::Read;

fn run(rt: &HostRuntime) -> anyhow::Result<()> {
    let mut bytes = Vec::new(rt.alloc());
    rt.stdin().take(enough()).read_to_end(&mut bytes)?;
    let text = sheet(rt.alloc(), bytes.as_slice())?;
    rt.write_all(text.as_slice())?;
    Ok(())
}

fn main(rt: HostRuntime) -> anyhow::Result<()> {
    run(&rt)
}
