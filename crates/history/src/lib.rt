// The history of one build: which piece of which file had which fingerprint, and whether a file is unchanged.
#![tactic(auto)]

pub mod difference;
pub mod judging;
pub mod notes;
pub mod record;
pub mod shown;
