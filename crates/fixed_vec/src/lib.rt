// A vector of at most so many members that is copied like an array.
#![tactic(auto)]

mod cells;
mod vector;

pub use vector::FixedVec;
