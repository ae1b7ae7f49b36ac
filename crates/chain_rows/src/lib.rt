// Rows of entries in chains: the types, what a table of chains keeps, and what a walk or a write does to it. No code of tables.
#![tactic(auto)]

pub mod row;
