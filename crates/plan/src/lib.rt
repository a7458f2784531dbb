// The plan's file: bytes, blocks and their checks, the fields, the counts and places, the table of refusals but for the last. All answers stand here.
#![tactic(auto)]

pub mod answer;
pub mod blocks;
pub mod bytes;
pub mod fields;
pub mod header;
pub mod ids;
pub mod places;
pub mod plan;
pub mod records;
