// Even shares of a limit, in whole watts (request 10).
#![tactic(auto)]

pub mod even;
pub mod watts;
