// A name of 1 to 16 bytes, kept so that equal names are equal values.
ghost use Rattle.std.specs.Prelude.{◌≡◌, ◌≤◌, take};
ghost use Rattle.keys.specs.Bytes.{padded};

// A name: its length, and its bytes with zeros behind them.
// Keys are copied into tables that have no heap, so the bytes lie in the name itself, with their number beside them.
#[derive(Clone, Copy, PartialEq, Eq, Debug)]
pub struct NameKey {
    pub(crate) length: u8,
    pub(crate) bytes: [u8; 16],
    ghost some: { 1 ≤ length },
    ghost few: { length ≤ 16 },
    ghost blank: { bytes ≡ padded (take length bytes) },
}
