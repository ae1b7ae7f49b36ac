// Comparing two builds by text: each line says of which pieces a file consists, in the old build or in the new one.
#![tactic(auto)]

pub mod answer;
pub mod line;
pub mod read;
pub mod reply;
pub mod shown;
