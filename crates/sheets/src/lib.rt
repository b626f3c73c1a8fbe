//! The sheet of a book.
#![tactic(auto)]

mod asks;
mod books;
mod calls;
mod growing;
mod opened;
mod rows;
mod writing;

pub use books::{every_way_holds, sheet};
