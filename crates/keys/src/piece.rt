// The key of one piece of a file, and how many pieces a file has.
ghost use Rattle.std.specs.Prelude.{◌≡◌};
ghost use Rattle.keys.specs.Orders.{pair_first};
ghost use Rattle.keys.specs.Pieces.{pieces};
ghost use Rattle.std.proofs.Common.{rules};

use crate::key::Key;

// A piece of a file: the file's number, then the piece's, counted from 0.
#[derive(Clone, Copy, PartialEq, Eq, PartialOrd, Ord, Debug)]
pub struct PieceKey {
    pub file: u32,
    pub piece: u32,
}

impl Key for PieceKey {
    ghost first = { λ a b. pair_first a.file a.piece b.file b.piece };

    ghost irreflexive = { Prim.search rules };

    ghost transitive = { Prim.search rules };

    ghost total = { Prim.search rules };

    fn goes_first(self, other: PieceKey) -> bool {
        self < other
    }
}

// How many bytes a piece has; the last one of a file may have fewer.
pub const PIECE_BYTES: u64 = 65536;

// How many pieces a file of that many bytes has.
pub fn pieces_of(length: u64) -> u64
    ensures { result ≡ pieces length }
{
    length.div_ceil(PIECE_BYTES)
}
