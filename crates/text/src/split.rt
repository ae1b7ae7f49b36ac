// What is left to read of a text that is cut at a byte.

// The parts of a text that are not read yet: the text from the next one on, or nothing where all are read.
// The library's `split` is no plainer: it has no test whether parts are left, and its type would name the closure that cuts.
#[derive(Clone, Copy)]
pub struct Parts<'a> {
    pub(crate) rest: Option<&'a [u8]>,
    pub(crate) separator: u8,
}

// The lines of a text that are to be answered and are not read yet.
#[derive(Clone, Copy)]
pub struct Lines<'a> {
    pub(crate) parts: Parts<'a>,
}
