// A practice day: a plan with copies of one vehicle, drawn from a seed (request 11).
#![tactic(auto)]

pub mod call;
mod practice_plan;
mod xorshift;
