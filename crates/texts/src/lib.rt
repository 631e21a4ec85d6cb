// What every reader and writer of a text needs: hex, numbers, lines and fields.

#![tactic(auto)]

pub mod fields;
pub mod hex;
pub mod number;
pub mod reader;
pub mod writer;
