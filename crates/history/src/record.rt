// The record of one build: a book of its pieces with their fingerprints.
use books::book::Book;
use keys::piece::PieceKey;

// A piece, and the fingerprint that it was recorded with.
#[derive(Clone, Copy)]
pub struct NotedPiece {
    pub key: PieceKey,
    pub print: u64,
}

// The pieces of one build, in the order of their arrival. An alias, so that all that a book promises holds of it; what is asked of a record
// alone are functions.
pub type History<'a> = Book<'a, NotedPiece>;
