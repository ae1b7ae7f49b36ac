// Numbers, words and keys as text. A text is read exactly where it is what would be written, so what is written reads back.
#![tactic(auto)]

pub mod cutting;
pub mod keyed;
pub mod laws;
pub mod lines;
pub mod numbers;
pub mod reader;
pub mod rest;
pub mod split;
