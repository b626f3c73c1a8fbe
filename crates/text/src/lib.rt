//! Rows of text: a word, then numbers in decimals, each behind a space.
#![tactic(auto)]

ghost use Rattle.std.specs.Prelude.{◌≡◌, ◌++◌, OnOk};
ghost use Rattle.text.specs.Rows.{row, NumbersReadBack};

use itoa::Buffer;
use std::alloc::AllocError;

/// Writes a row behind a text.
pub fn put_row(out: &mut Vec<u8>, word: &[u8], numbers: &[u64]) -> Result<(), AllocError>
    ensures { OnOk result (out.new.items ≡ out.old.items ++ row word.now numbers.now) }
{
    let mut digits = Buffer::new();
    out.extend_from_slice(word)?;
    for number in numbers {
        out.push(b' ')?;
        out.extend_from_slice(digits.format(*number).as_bytes())?;
    }
    out.push(b'\n')?;
    Ok(())
}

/// What is written of a number is a numeral with that value.
pub fn numbers_read_back()
    ensures { NumbersReadBack }
{}
