// Books: append-only lists of keys in a slice that the caller lends.
#![tactic(auto)]

pub mod book;
pub mod pages;
pub mod size;
