// Places compared through the book of their keys, for every key type.
#![tactic(auto)]

ghost use Rattle.std.specs.Prelude.{◌≡◌};
ghost use Rattle.books.specs.Books.{book_keys};
ghost use Rattle.places.specs.Places.{place_first, goes_left, way_from, PlacesOrdered, PlacesAlike, WaysToHold};

use books::book::Book;
use keys::key::Key;

// Whether the key at one place goes before the key at another; a place without a key goes last.
#[tactic(auto, unfolding(crate::specs::Places::place_first))]
pub fn place_first<K: Key>(book: &Book<K>, p: u32, q: u32) -> bool
    ensures { result ≡ place_first K.first (book_keys book.now) p q }
{
    match (book.key(p as usize), book.key(q as usize)) {
        (Some(a), Some(b)) => a.goes_first(b),
        (Some(_), None) => true,
        (None, _) => false,
    }
}

// Whether a key goes before the one at a place; not where none is written.
pub fn goes_left<K: Key>(book: &Book<K>, key: K, p: u32) -> bool
    ensures { result ≡ goes_left K.first (book_keys book.now) key p }
{
    book.key(p as usize)
        .is_some_and(|other| key.goes_first(other))
}

// On which side of a place a key lies, false for left; nothing where the place holds the key, or none. A side is a bool, true for right,
// in all that the trees promise: `usize::from` is the number of its link, and an enum of two sides would be turned into one at each call.
pub fn way<K: Key>(book: &Book<K>, key: K, p: u32) -> Option<bool>
    ensures { result ≡ way_from K.first (book_keys book.now) key p }
{
    let here = book.key(p as usize)?;
    if key.goes_first(here) {
        Some(false)
    } else if here.goes_first(key) {
        Some(true)
    } else {
        None
    }
}

// Places are ordered as their keys are.
pub fn places_hold<K>() -> u8
    ensures ordered { PlacesOrdered K }
    ensures alike { PlacesAlike K }
    ensures ways { WaysToHold K }
{
    0
}
