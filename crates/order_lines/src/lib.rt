// Lines of text that ask a version order: reading one, and running it over any order that can be asked for labels.
#![tactic(auto)]

pub mod line;
pub mod parse;
pub mod run;
pub mod show;
