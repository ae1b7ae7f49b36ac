// Merging two heaps: the one under a register, and the one under register 39.
ghost use Rattle.std.specs.Prelude.{◌-◌};
ghost use Rattle.books.specs.Books.{book_keys};
ghost use Rattle.places.specs.Places.{place_first};
ghost use Rattle.working.specs.Works.{Works};
ghost use Rattle.queue_steps.specs.Merge.{merge_of};
ghost use Rattle.queue_calls.specs.Rows.{lead_of};

use crate::levels::{hang, swap};
use books::book::Book;
use keys::key::Key;
use memory::pointer::PointerMemory;
use order::VersionOrder;
use places::place_first;
use refusals::kinds::MemoryRefusal;
use working::Working;

// The heap whose first job goes before the other's comes into register d.
#[tactic(auto, unfolding(crate::specs::Rows::lead_of))]
fn lead<K: Key, M: PointerMemory, O: VersionOrder>(
    work: &mut Working<'_, M, O>,
    book: &Book<K>,
    d: usize,
) -> Result<(), MemoryRefusal>
    ensures { Works M.means O.items work.old work.new result (lead_of (place_first K.first (book_keys book.now)) d) }
{
    let there = work.key(39)?;
    let here = work.key(d)?;
    if place_first(book, there, here) {
        return swap(work, d);
    }
    Ok(())
}

// The heap of register 39 joins that of register d.
#[tactic(auto, unfolding(queue_steps::specs::Merge::merge_of))]
pub(crate) fn merge<K: Key, M: PointerMemory, O: VersionOrder>(
    work: &mut Working<'_, M, O>,
    book: &Book<K>,
    d: usize,
) -> Result<(), MemoryRefusal>
    ensures { Works M.means O.items work.old work.new result (merge_of (place_first K.first (book_keys book.now)) (25 - d) d) }
{
    if d >= 25 {
        return Err(MemoryRefusal::OutOfRange);
    }
    if work.is_nil(39)? {
        return Ok(());
    }
    if work.is_nil(d)? {
        return work.copy(39, d);
    }
    lead(work, book, d)?;
    work.follow(d, 1, d + 1)?;
    merge(work, book, d + 1)?;
    hang(work, d)
}
