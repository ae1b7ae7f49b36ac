// Reading lines that call a memory.
#![tactic(auto)]

pub mod parse;
mod read;
