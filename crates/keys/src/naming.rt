// Names made from bytes, compared, and read back.
ghost use Rattle.std.specs.Prelude.{◌≡◌};
ghost use Rattle.keys.specs.Bytes.{bytes_first};
ghost use Rattle.keys.specs.Names.{name_bytes, Named};
ghost use Rattle.keys.specs.BytesLemmas.{bytes_irreflexive, bytes_transitive};
ghost use Rattle.keys.specs.NamesLemmas.{names_total};

use crate::key::Key;
use crate::name::NameKey;
use refusals::kinds::NameRefusal;

impl NameKey {
    // The name of these bytes; refused unless there are 1 to 16 of them.
    // By `TryFrom` each name in quotes would have to be made a slice first, as `b"ab".as_slice()`.
    pub fn new(text: &[u8]) -> Result<NameKey, NameRefusal>
        ensures { Named text.now result }
    {
        if text.is_empty() || text.len() > 16 {
            return Err(NameRefusal::Length);
        }
        // there are at most 16, so the length is kept whole in 8 bits
        let mut bytes = [0u8; 16];
        bytes[..text.len()].copy_from_slice(text);
        Ok(NameKey {
            length: text.len() as u8,
            bytes,
        })
    }

    // The name's bytes.
    pub fn as_bytes(&self) -> &[u8]
        ensures { result.now ≡ name_bytes self.now }
    {
        &self.bytes[..usize::from(self.length)]
    }
}

impl Key for NameKey {
    ghost first = { λ a b. bytes_first (name_bytes a) (name_bytes b) };

    ghost irreflexive = { λ a. bytes_irreflexive (name_bytes a) };

    ghost transitive = { λ a b c p q. bytes_transitive (name_bytes a) (name_bytes b) (name_bytes c) p q };

    ghost total = { λ a b p q. names_total a b p q };

    fn goes_first(self, other: NameKey) -> bool {
        self.as_bytes() < other.as_bytes()
    }
}
