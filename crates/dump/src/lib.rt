// A raw dump of a run by events, and a run that continues from one (request 1).
#![tactic(auto)]

pub mod call;
pub mod dump;
mod event_blocks;
mod header;
pub mod resume;
