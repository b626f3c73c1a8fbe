//! The sheet of a book.
#![tactic(auto)]

ghost use Rattle.std.specs.Prelude.{◌≡◌, ℕ, List, ◌++◌, take, IfOk, Some, None, string_bytes, MatchOption, OnOk};
ghost use Rattle.clearing.specs.Sheet.{fault_line, fault_sheet};

use book::{Fault, open};
use std::alloc::{AllocError, Global};

// `sheets` writes the same row behind a vector of bytes, and will take this crate's place.
/// Writes the line of a fault behind a text.
#[tactic(auto, unfolding(crate::specs::Sheet::fault_line))]
fn append_fault(out: &mut String, fault: Fault) -> Result<(), AllocError>
    ensures { OnOk result (string_bytes out.new ≡ string_bytes out.old ++ fault_line fault) }
{
    let number = fault.question.number();
    let record = fault.record;
    writeln!(out, "FAULT {number} {record}")
}

/// The sheet of a book that cannot be read; `None` where the book reads.
///
/// `bytes` may be the front of a longer input: one byte more than the longest book is enough.
pub fn fault_sheet(heap: Global, bytes: &[u8]) -> Result<Option<String>, AllocError>
    ensures { (input : List ℕ) → bytes.now ≡ take 24577 input → IfOk result (λ sheet. MatchOption sheet (fault_sheet input ≡ None) (λ text. fault_sheet input ≡ Some (string_bytes text))) }
{
    let Err(fault) = open(bytes) else {
        return Ok(None);
    };
    let mut out = String::new(heap);
    append_fault(&mut out, fault)?;
    Ok(Some(out))
}
