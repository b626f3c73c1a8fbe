//! The rules of a market: what each means, the law that each shows, and the rules that ship.
#![tactic(auto)]

ghost use Rattle.rules.specs.Examples.{Examples};

pub mod crossing;
pub mod pair;
pub mod price;
mod principles;
pub mod sharing;

/// Worked examples of the rules that ship, derived from their definitions.
#[tactic(auto, using(crate::proofs::Worked::examples))]
pub fn examples_hold()
    ensures { Examples }
{}
