// Tables of rows that form a doubly linked list, whatever their items carry: what they mean, and what each write to them leaves.
#![tactic(auto)]

mod links;
pub mod range;
pub mod refusing;
pub mod row;
pub mod table;
