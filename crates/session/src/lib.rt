//! Sessions: opening figures, and the calls of batch sessions as moved types. Each call answers, and leaves the session,
//! as its definition says.
#![tactic(auto)]

pub mod auction;
pub mod batch;
pub mod continuous;
mod desk;
pub mod market;
pub mod opening;
