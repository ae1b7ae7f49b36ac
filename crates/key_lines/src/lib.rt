// Lines that ask which of two keys goes first.
#![tactic(auto)]

pub mod answer;
pub mod reply;
pub mod shown;
pub mod which;
