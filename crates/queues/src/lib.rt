// The two queues, due and held, over any memory, any order and any key. A job is the place of its key in the book.
// Memory and book stand apart, as in the trees' calls below: a struct of both would be taken apart there.
#![tactic(auto)]

ghost use Rattle.books.specs.Books.{book_keys};
ghost use Rattle.places.specs.Places.{place_first};
ghost use Rattle.memory.specs.Promises.{Carries};
ghost use Rattle.working.specs.Works.{Works, working_means};
ghost use Rattle.queue_steps.specs.Queues.{push_of, pop_of, top_of, release_of};
ghost use Rattle.queues.specs.Promised.{Pushes, Holds, Pops, Tops, Releases};

use books::book::Book;
use keys::key::Key;
use memory::pointer::PointerMemory;
use order::VersionOrder;
use queue_calls::calls;
use refusals::kinds::MemoryRefusal;
use working::Working;

// A job becomes due. `push` and `hold` are one `join` at two roots, and what they promise speaks of two queues.
pub fn push<K: Key, M: PointerMemory, O: VersionOrder>(
    work: &mut Working<'_, M, O>,
    book: &Book<K>,
    place: u32,
) -> Result<(), MemoryRefusal>
    ensures runs { Works M.means O.items work.old work.new result (push_of (place_first K.first (book_keys book.now)) 1 place) }
    ensures pushes { Pushes (working_means M.means O.items) work.old work.new (place_first K.first (book_keys book.now)) place result }
{
    calls::join(work, book, 1, place)
}

// A job is held until the next release.
pub fn hold<K: Key, M: PointerMemory, O: VersionOrder>(
    work: &mut Working<'_, M, O>,
    book: &Book<K>,
    place: u32,
) -> Result<(), MemoryRefusal>
    ensures runs { Works M.means O.items work.old work.new result (push_of (place_first K.first (book_keys book.now)) 2 place) }
    ensures holds { Holds (working_means M.means O.items) work.old work.new (place_first K.first (book_keys book.now)) place result }
{
    calls::join(work, book, 2, place)
}

// The first due job goes, and its place is answered; nothing where no job is due.
pub fn pop<K: Key, M: PointerMemory, O: VersionOrder>(
    work: &mut Working<'_, M, O>,
    book: &Book<K>,
) -> Result<Option<u32>, MemoryRefusal>
    ensures runs { Works M.means O.items work.old work.new result (pop_of (place_first K.first (book_keys book.now)) 1) }
    ensures pops { Pops (working_means M.means O.items) work.old work.new (place_first K.first (book_keys book.now)) result }
{
    calls::pop(work, book)
}

// The place of the first due job, or nothing where no job is due. Nothing but registers is moved.
pub fn top<M: PointerMemory, O: VersionOrder>(
    work: &mut Working<'_, M, O>,
) -> Result<Option<u32>, MemoryRefusal>
    ensures runs { Works M.means O.items work.old work.new result (top_of 1) }
    ensures tops { Tops (working_means M.means O.items) work.old work.new result }
    ensures alike { Carries M.alike work.old.memory.now work.new.memory.now }
{
    calls::top(work)
}

// The held jobs become due.
pub fn release<K: Key, M: PointerMemory, O: VersionOrder>(
    work: &mut Working<'_, M, O>,
    book: &Book<K>,
) -> Result<(), MemoryRefusal>
    ensures runs { Works M.means O.items work.old work.new result (release_of (place_first K.first (book_keys book.now))) }
    ensures releases { Releases (working_means M.means O.items) work.old work.new (place_first K.first (book_keys book.now)) result }
{
    calls::release(work, book)
}
