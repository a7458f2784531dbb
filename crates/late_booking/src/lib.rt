// A car that is booked late: the dump of a run by events with one vehicle more yet to arrive (request 7).
#![tactic(auto)]

mod check_dump;
pub mod late;
mod longer;
