// A version order in two levels: items in groups of at most 32, and the groups in a relabelled list of their own.
#![tactic(auto)]

pub mod calls;
mod divide;
pub mod list;
mod runs;
