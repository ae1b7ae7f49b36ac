// What a file's fingerprints say against the record.

// Why a file is not as it was recorded, and at which piece the first difference is.
// The first missing piece may have the number 2^32, one above the highest that a key can hold, so that numbers have 64 bits.
#[derive(Clone, Copy, PartialEq, Eq, Debug)]
pub enum Difference {
    // there are pieces, and none of the file is recorded
    NotRecorded,
    // this piece is recorded with another fingerprint
    Differs(u64),
    // this piece is not recorded, though others of the file are
    Missing(u64),
    // this piece is recorded, and the file has no such piece now
    LeftOver(u64),
}
