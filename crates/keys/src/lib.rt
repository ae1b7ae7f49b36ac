// Keys and how they are ordered: the interface of every key type, and the three key types of the store.
#![tactic(auto)]

pub mod job;
pub mod key;
pub mod laws;
pub mod name;
pub mod naming;
pub mod piece;
pub mod shown;
