// SHA-256 (FIPS 180-4) as a running hash.

#![tactic(auto)]

mod compression;
pub mod running;
mod schedule;
mod words;
