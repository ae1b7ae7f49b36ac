// The map's reading calls, by what they answer of its keys and values.
// Memory and book stand apart, as in the trees' calls below: a struct of both would be taken apart there.
#![tactic(auto)]

ghost use Rattle.books.specs.Books.{book_keys};
ghost use Rattle.memory.specs.Memory.{Memory};
ghost use Rattle.working.specs.Works.{SameLoan, working_means};
ghost use Rattle.map_reading.specs.Reading.{GetsValue, GetsAbove};

use books::book::Book;
use keys::key::Key;
use map::{get, next};
use memory::pointer::PointerMemory;
use order::VersionOrder;
use refusals::kinds::MemoryRefusal;
use working::Working;

// The value of a key, or nothing.
pub fn value_of<M: PointerMemory, O: VersionOrder, K: Key>(
    work: &mut Working<'_, M, O>,
    book: &Book<K>,
    key: K,
) -> Result<Option<u64>, MemoryRefusal>
    ensures meaning { (m : Memory) → working_means M.means O.items work.old m → GetsValue K.first (book_keys book.now) key (working_means M.means O.items) work.new result m }
    ensures same { SameLoan work.old work.new }
{
    get(work, book, key)
}

// The place and the value of the first key above a key, or nothing.
pub fn entry_above<M: PointerMemory, O: VersionOrder, K: Key>(
    work: &mut Working<'_, M, O>,
    book: &Book<K>,
    key: K,
) -> Result<Option<(u32, u64)>, MemoryRefusal>
    ensures meaning { (m : Memory) → working_means M.means O.items work.old m → GetsAbove K.first (book_keys book.now) key (working_means M.means O.items) work.new result m }
    ensures same { SameLoan work.old work.new }
{
    next(work, book, key)
}
