// One line: a file of the old build or of the new one.

// Which build a line speaks of.
#[derive(Clone, Copy, PartialEq, Eq, Debug)]
pub enum Build {
    Was,
    Now,
}

// A file of a build: its number, its length in bytes, and the fingerprints of its pieces.
#[derive(Drop)]
pub struct FileLine {
    pub build: Build,
    pub file: u32,
    pub length: u64,
    pub prints: Vec<u64>,
}
