// A version order kept by labels: a doubly linked list of items whose labels rise from the first to the last.
#![tactic(auto)]

pub mod calls;
pub mod list;
mod place;
mod ranges;
mod spreading;
