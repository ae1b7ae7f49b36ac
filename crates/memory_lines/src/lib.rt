// Lines that call a memory: running one over any memory and any order, and the text of the answer.
#![tactic(auto)]

pub mod line;
pub mod run;
pub mod show;
pub mod versions;
