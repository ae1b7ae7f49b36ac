// The table of copies, over any version order: what a field of a copy holds at a version, and which versions a copy serves.
#![tactic(auto)]

pub mod table;
