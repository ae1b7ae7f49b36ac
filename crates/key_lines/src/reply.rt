// Answering a line that asks which of two keys goes first.
ghost use Rattle.std.specs.Prelude.{◌≡◌};
ghost use Rattle.std.specs.Option.{option_map};
ghost use Rattle.text.specs.Parts.{parts, words};
ghost use Rattle.key_lines.specs.Asked.{pair_answer, names_of, key_answer};

use crate::answer::{KeyRefusal, Which};
use crate::which::which_goes_first;
use keys::job::JobKey;
use keys::key::Key;
use keys::name::NameKey;
use keys::piece::PieceKey;
use text::keyed::WordKey;
use text::split::Parts;

// The answer to the word of a kind of key and two such keys.
fn pair<K: Key + WordKey>(kind: &[u8], line: &[u8]) -> Option<Which>
    ensures { result ≡ pair_answer K.written K.first kind.now (words line.now) }
{
    let mut words = Parts::words(line);
    words.keyword(kind)?;
    let a = words.key::<K>()?;
    let b = words.key::<K>()?;
    words.is_done().then_some(which_goes_first(a, b))
}

// The two names of `name "A" "B"`.
fn names(line: &[u8]) -> Option<(&[u8], &[u8])>
    ensures { option_map (λ p. (p.0.now, p.1.now)) result ≡ names_of (parts 34 line.now) }
{
    let mut quoted = Parts::new(line, b'"');
    quoted.keyword(b"name ")?;
    let a = quoted.next()?;
    quoted.keyword(b" ")?;
    let b = quoted.next()?;
    quoted.keyword(b"")?;
    quoted.is_done().then_some((a, b))
}

// The answer to a line.
pub fn reply(line: &[u8]) -> Result<Which, KeyRefusal>
    ensures { result ≡ key_answer line.now }
{
    let of_words = pair::<PieceKey>(b"piece", line).or_else(|| pair::<JobKey>(b"job", line));
    if let Some(which) = of_words {
        return Ok(which);
    }
    let (a, b) = names(line).ok_or(KeyRefusal::NotALine)?;
    Ok(which_goes_first(NameKey::new(a)?, NameKey::new(b)?))
}
