//! A sheet as it is written.
ghost use Rattle.std.specs.Prelude.{◌≡◌, length};

use orders::order::MEMBERS;

/// The text so far, and which members have lines.
#[derive(Drop)]
pub(crate) struct Sheet {
    pub text: Vec<u8>,
    // By the member's number: a set would search for each line, and lines are what long sheets are made of.
    pub traded: [bool; MEMBERS],
    ghost marked: { length traded ≡ 64 },
}
