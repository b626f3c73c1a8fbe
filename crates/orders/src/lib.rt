//! Orders, lines and accounts, and the plain tables that hold them.
#![tactic(auto)]

pub mod changes;
pub mod demand;
pub mod members;
pub mod order;
pub mod period;
pub mod rank;
pub mod tables;
