// A book read back (request 5): refused, or its sessions bit for bit; and totals of a book that was read.
#![tactic(auto)]

mod blocks;
mod fields;
pub mod numbers;
pub mod reader;
mod sessions;
pub mod totals;
