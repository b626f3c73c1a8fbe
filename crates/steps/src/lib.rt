//! What each call of a session answers, and the session that it leaves: definitions for uniform, paired and continuous
//! sessions, which the contracts of the calls cite and the theorems speak of.
#![tactic(auto)]

pub mod call;
pub mod refusal;
