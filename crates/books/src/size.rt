// How many keys a book holds, and how many it can hold.
ghost use Rattle.std.specs.Prelude.{◌≡◌, ◌≤◌, length};
ghost use Rattle.books.specs.Books.{book_keys, book_room};

use crate::book::Book;

impl<'a, K: Copy> Book<'a, K> {
    // How many keys the book holds.
    pub fn count(&self) -> usize
        ensures { result ≡ length (book_keys self.now) }
    {
        self.len
    }

    // How many keys the book can hold.
    pub fn room(&self) -> usize
        ensures places { result ≡ book_room self.now }
        ensures enough { length (book_keys self.now) ≤ result }
    {
        self.slots.len()
    }
}
