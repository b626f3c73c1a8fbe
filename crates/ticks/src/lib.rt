//! The ticks, and demand and supply at all of them.
#![tactic(auto)]

pub mod figures;
pub mod search;
pub mod tick;
