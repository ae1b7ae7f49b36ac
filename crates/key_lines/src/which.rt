// Which of two keys goes first, for every key type.
ghost use Rattle.std.specs.Prelude.{◌≡◌};
ghost use Rattle.key_lines.specs.declared.answer.Which.TheVariants.{Equal};
ghost use Rattle.key_lines.specs.Asked.{which};

use crate::answer::Which;
use keys::key::Key;

// The key that goes first, or that both are one key.
pub fn which_goes_first<K: Key>(a: K, b: K) -> Which
    ensures order { result ≡ which (K.first a b) (K.first b a) }
    ensures equal { result ≡ Equal → a ≡ b }
    ensures one { a ≡ b → result ≡ Equal }
{
    if a.goes_first(b) {
        Which::First
    } else if b.goes_first(a) {
        Which::Second
    } else {
        Which::Equal
    }
}
