// Chains of entry rows in one table, over any version order.
#![tactic(auto)]

pub mod asking;
pub mod table;
pub mod walk;
pub mod walking;
