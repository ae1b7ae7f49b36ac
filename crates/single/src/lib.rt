// Single-version memory: one state, in a table of nodes that is given at making.
#![tactic(auto)]

pub mod calls;
mod changes;
pub mod make;
mod names;
pub mod node;
mod reading;
pub mod store;
