// The map's writing calls, by what they leave of its keys and values.
// Memory and book stand apart, as in the trees' calls below: a struct of both would be taken apart there.
#![tactic(auto)]

ghost use Rattle.books.specs.Books.{book_keys};
ghost use Rattle.memory.specs.Memory.{Memory};
ghost use Rattle.working.specs.Works.{SameLoan, working_means};
ghost use Rattle.map_writing.specs.Writing.{ReplacesValue, AddsKey};
ghost use Rattle.map_writing.specs.Growth.{BookGrows};

use books::book::Book;
use keys::key::Key;
use map::set;
use map_insert::add;
use memory::pointer::PointerMemory;
use order::VersionOrder;
use refusals::kinds::MemoryRefusal;
use working::Working;

// Gives a key that is there a value, and answers whether it is there.
pub fn replace<M: PointerMemory, O: VersionOrder, K: Key>(
    work: &mut Working<'_, M, O>,
    book: &Book<K>,
    key: K,
    value: u64,
) -> Result<bool, MemoryRefusal>
    ensures meaning { (m : Memory) → working_means M.means O.items work.old m → ReplacesValue K.first (book_keys book.now) key (working_means M.means O.items) work.new value result m }
    ensures same { SameLoan work.old work.new }
{
    set(work, book, key, value)
}

// Puts a key that is not there, but at a place of the book, into the map.
pub fn add_new<M: PointerMemory, O: VersionOrder, K: Key>(
    work: &mut Working<'_, M, O>,
    book: &Book<K>,
    key: K,
    place: u32,
    value: u64,
) -> Result<(), MemoryRefusal>
    ensures meaning { (m : Memory) → working_means M.means O.items work.old m → AddsKey K.first (book_keys book.now) key (working_means M.means O.items) work.new place value result m }
    ensures same { SameLoan work.old work.new }
{
    add(work, book, key, place, value)
}

// Keys that are added to the book leave the map as it is.
pub fn book_growth_holds<K>() -> u8
    ensures { BookGrows K }
{
    0
}
