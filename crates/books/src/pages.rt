// The calls of a book.
ghost use Rattle.std.specs.Prelude.{◌≡◌, [], length, OnErr};
ghost use Rattle.std.specs.List.{slice_get};
ghost use Rattle.books.specs.Books.{book_keys, book_room, push_answer, keys_after, Prefix, SameSlots};

use crate::book::Book;
use refusals::kinds::BookRefusal;

impl<'a, K: Copy> Book<'a, K> {
    // An empty book over the lent slice.
    pub fn new(slots: &'a mut [K]) -> Book<'a, K>
        ensures keys { book_keys result ≡ [] }
        ensures room { book_room result ≡ length slots.old }
    {
        Book { slots, len: 0 }
    }

    // Writes the key at the next place and answers that place; refused, nothing is written.
    pub fn push(&mut self, key: K) -> Result<usize, BookRefusal>
        ensures answer { result ≡ push_answer (book_keys self.old) (book_room self.old) }
        ensures keys { book_keys self.new ≡ keys_after (book_keys self.old) (book_room self.old) key }
        ensures front { Prefix (book_keys self.old) (book_keys self.new) }
        ensures slots { SameSlots self.old self.new }
        ensures refused { OnErr result (self.new ≡ self.old) }
    {
        let place = self.len;
        // `get_mut` promises nothing of a slice from which it gives no place, and a refused push is to leave the book as it was.
        if place >= self.slots.len() {
            return Err(BookRefusal::Full);
        }
        self.slots[place] = key;
        self.len = place + 1;
        Ok(place)
    }

    // The key at a place, or nothing where none is written.
    pub fn key(&self, place: usize) -> Option<K>
        ensures { result ≡ slice_get (book_keys self.now) place }
    {
        self.as_slice().get(place).copied()
    }

    // All keys, in the order of their arrival.
    pub fn as_slice(&self) -> &[K]
        ensures { result.now ≡ book_keys self.now }
    {
        &self.slots[..self.len]
    }
}
