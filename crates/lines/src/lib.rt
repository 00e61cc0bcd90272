// Records from standard input, and lines put together in a buffer: what the programs that answer records are made of.
#![tactic(auto)]

pub mod input;
pub mod line;
