// The meaning of pointer memories and versioned memories, its laws, and the two interfaces.
#![tactic(auto)]

pub mod pointer;
pub mod theorems;
pub mod versioned;
