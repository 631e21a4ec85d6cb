// A file of published test vectors of hashes: read line by line, checked, and reported on.

#![tactic(auto)]

pub mod check;
pub mod entry;
mod fields;
pub mod read;
pub mod record;
pub mod tally;
pub mod vector;
pub mod write;
