//! Prints, for each stored book in the order of the index, its sheet where it has a fault, and its listing;
//! a book that reads is written again and compared with what was read.
#![tactic(auto)]

use book::{Entry, open, write};
use clearing::fault_sheet;
use listing::listing;
use std::alloc::{AllocError, Global};
use std::fs;

/// Whether the writing of what a book reads as is that book; `None` for a book that does not read.
// As in `sheet_samples`, until one program takes the other's place: a crate for one function meanwhile would be no plainer.
fn written_alike(heap: Global, bytes: &[u8]) -> Result<Option<bool>, AllocError> {
    let Ok(book) = open(bytes) else {
        return Ok(None);
    };
    let header = book.header();
    let mut entries = Vec::new(heap);
    for record in book {
        entries.push(Entry::from(record))?;
    }
    let mut out = vec![in heap; 0; bytes.len()]?;
    let done = write(header, entries.as_slice(), out.as_mut_slice());
    Ok(Some(done.is_ok() && out.as_slice() == bytes))
}

fn print_book(rt: &HostRuntime, name: &str) -> anyhow::Result<()> {
    let bytes = fs::read(rt, name)?;
    println!(rt; "== {name}")?;
    if let Some(text) = fault_sheet(rt.alloc(), bytes.as_slice())? {
        rt.write_all(text.as_bytes())?;
    }
    let text = listing(rt.alloc(), bytes.as_slice())?;
    rt.write_all(text.as_bytes())?;
    if let Some(alike) = written_alike(rt.alloc(), bytes.as_slice())? {
        println!(rt; "written alike: {alike}")?;
    }
    Ok(())
}

fn run(rt: &HostRuntime) -> anyhow::Result<()> {
    let index = fs::read_to_string(rt, "index")?;
    for name in index.lines() {
        print_book(rt, name)?;
    }
    Ok(())
}

fn main(rt: HostRuntime) -> anyhow::Result<()> {
    run(&rt)
}
