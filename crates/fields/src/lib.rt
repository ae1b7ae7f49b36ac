// The fields of a node and of the root record, and what a field holds: the types that entry lists, their tables and their theory share.
#![tactic(auto)]

pub mod kinds;
