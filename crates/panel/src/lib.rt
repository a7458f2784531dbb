// Cabinet registers: a panel beside a run by steps (request 12).
#![tactic(auto)]

pub mod call;
mod events;
pub mod panel;
mod registers;
mod script;
