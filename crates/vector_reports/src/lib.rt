// The report on the test vectors of a file: its records one by one, and their lines. No file has two reports.

#![tactic(auto)]

pub mod line;
pub mod record;
