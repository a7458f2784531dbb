// The files and the two calls: the plan read into site data, the pairs that cannot charge, the book, check and run.
#![tactic(auto)]

mod book;
pub mod book_session;
pub mod call;
pub mod check;
pub mod counted;
mod engines;
pub mod loaded;
mod pairs;
mod read;
pub mod session_blocks;
pub mod stop;
mod totals;
