//! Writes the sheet of the order book on standard input.
#![tactic(auto)]

use anyhow::anyhow;
use book::enough;
use clearing::fault_sheet;
use std::io::Read;

fn run(rt: &HostRuntime) -> anyhow::Result<()> {
    let mut bytes = Vec::new(rt.alloc());
    rt.stdin().take(enough()).read_to_end(&mut bytes)?;
    match fault_sheet(rt.alloc(), bytes.as_slice())? {
        Some(text) => {
            rt.write_all(text.as_bytes())?;
            Ok(())
        }
        // The text stays until `whole_sheet` takes this program's place.
        None => Err(anyhow!("the book reads, but clearing is not built yet")),
    }
}

fn main(rt: HostRuntime) -> anyhow::Result<()> {
    run(&rt)
}
