// The rows of a table of copies: a copy's first version, its first values and the next copy of its node.
#![tactic(auto)]

pub mod row;
