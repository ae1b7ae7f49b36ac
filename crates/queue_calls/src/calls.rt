// The calls of the queues: due is the heap of root 1, held that of root 2. A job is the place of its key in the book.
ghost use Rattle.books.specs.Books.{book_keys};
ghost use Rattle.places.specs.Places.{place_first};
ghost use Rattle.memory.specs.Promises.{Carries};
ghost use Rattle.working.specs.Works.{Works};
ghost use Rattle.queue_steps.specs.Queues.{push_of, part_of, pop_of, top_of, release_of};

use crate::merging::merge;
use books::book::Book;
use keys::key::Key;
use memory::pointer::PointerMemory;
use order::VersionOrder;
use refusals::kinds::MemoryRefusal;
use tree_calls::{blank, save};
use working::Working;

// A job joins the queue of a root.
#[tactic(auto, unfolding(queue_steps::specs::Queues::push_of))]
pub fn join<K: Key, M: PointerMemory, O: VersionOrder>(
    work: &mut Working<'_, M, O>,
    book: &Book<K>,
    root: usize,
    place: u32,
) -> Result<(), MemoryRefusal>
    ensures { Works M.means O.items work.old work.new result (push_of (place_first K.first (book_keys book.now)) root place) }
{
    work.load(root, 0)?;
    work.make(39, place, 0, 1)?;
    merge(work, book, 0)?;
    save(work, root, 0)
}

// The first node of register 0's heap leaves its children in registers 0 and 39, and loses both links.
#[tactic(auto, unfolding(queue_steps::specs::Queues::part_of))]
fn part<M: PointerMemory, O: VersionOrder>(
    work: &mut Working<'_, M, O>,
) -> Result<(), MemoryRefusal>
    ensures { Works M.means O.items work.old work.new result part_of }
{
    work.copy(0, 36)?;
    work.follow(36, 0, 0)?;
    work.follow(36, 1, 39)?;
    blank(work, 36)
}

// The first due job goes, and its place is answered; nothing where no job is due.
#[tactic(auto, unfolding(queue_steps::specs::Queues::pop_of))]
pub fn pop<K: Key, M: PointerMemory, O: VersionOrder>(
    work: &mut Working<'_, M, O>,
    book: &Book<K>,
) -> Result<Option<u32>, MemoryRefusal>
    ensures { Works M.means O.items work.old work.new result (pop_of (place_first K.first (book_keys book.now)) 1) }
{
    work.load(1, 0)?;
    if work.is_nil(0)? {
        return Ok(None);
    }
    let place = work.key(0)?;
    part(work)?;
    merge(work, book, 0)?;
    save(work, 1, 0)?;
    Ok(Some(place))
}

// The place of the first due job, or nothing where no job is due. Nothing but registers is moved.
#[tactic(auto, unfolding(queue_steps::specs::Queues::top_of))]
pub fn top<M: PointerMemory, O: VersionOrder>(
    work: &mut Working<'_, M, O>,
) -> Result<Option<u32>, MemoryRefusal>
    ensures runs { Works M.means O.items work.old work.new result (top_of 1) }
    ensures alike { Carries M.alike work.old.memory.now work.new.memory.now }
{
    work.load(1, 0)?;
    if work.is_nil(0)? {
        return Ok(None);
    }
    let first = work.key(0)?;
    Ok(Some(first))
}

// The held jobs become due.
#[tactic(auto, unfolding(queue_steps::specs::Queues::release_of))]
pub fn release<K: Key, M: PointerMemory, O: VersionOrder>(
    work: &mut Working<'_, M, O>,
    book: &Book<K>,
) -> Result<(), MemoryRefusal>
    ensures { Works M.means O.items work.old work.new result (release_of (place_first K.first (book_keys book.now))) }
{
    work.load(1, 0)?;
    work.load(2, 39)?;
    merge(work, book, 0)?;
    save(work, 1, 0)?;
    save(work, 2, 35)
}
