// The map's calls that read it or replace a value, over any key type, memory and order. Each runs its row of steps, from whatever its
// memory means.
// Memory, book and the key that is asked for stay apart: callers have them so, every clause would still name each, and the trees' calls below
// use no book. `find` and `seek` call themselves, as their rows of steps do: a loop would need an invariant that says the same.
#![tactic(auto)]

ghost use Rattle.std.specs.Prelude.{ℕ, ◌-◌, Bool};
ghost use Rattle.books.specs.Books.{book_keys};
ghost use Rattle.working.specs.Works.{Works};
ghost use Rattle.places.specs.Places.{goes_left, way_from};
ghost use Rattle.map_steps.specs.Find.{find_of, lookup_of, get_of, set_of, seek_of};
ghost use Rattle.map.specs.Next.{next_pair_of, NextPaired};

use books::book::Book;
use keys::key::Key;
use memory::pointer::PointerMemory;
use order::VersionOrder;
use places::{goes_left, way};
use refusals::kinds::MemoryRefusal;
use tree_calls::set_value;
use working::Working;

// The register that holds the node with a key, or nothing; from the subtree under register d.
#[tactic(auto, unfolding(map_steps::specs::Find::find_of))]
pub(crate) fn find<M: PointerMemory, O: VersionOrder, K: Key>(
    work: &mut Working<'_, M, O>,
    book: &Book<K>,
    key: K,
    d: usize,
) -> Result<Option<usize>, MemoryRefusal>
    ensures { Works M.means O.items work.old work.new result (find_of (way_from K.first (book_keys book.now) key) (25 - d) d) }
{
    if d >= 25 {
        return Err(MemoryRefusal::OutOfRange);
    }
    if work.is_nil(d)? {
        return Ok(None);
    }
    let here = work.key(d)?;
    let Some(right) = way(book, key, here) else {
        return Ok(Some(d));
    };
    let side = usize::from(right);
    work.follow(d, side, d + 1)?;
    find(work, book, key, d + 1)
}

// The register that holds the map's node with a key, or nothing.
#[tactic(auto, unfolding(map_steps::specs::Find::lookup_of))]
pub fn lookup<M: PointerMemory, O: VersionOrder, K: Key>(
    work: &mut Working<'_, M, O>,
    book: &Book<K>,
    key: K,
) -> Result<Option<usize>, MemoryRefusal>
    ensures { Works M.means O.items work.old work.new result (lookup_of (way_from K.first (book_keys book.now) key)) }
{
    work.load(0, 0)?;
    find(work, book, key, 0)
}

// The value of a key, or nothing.
#[tactic(auto, unfolding(map_steps::specs::Find::get_of))]
pub fn get<M: PointerMemory, O: VersionOrder, K: Key>(
    work: &mut Working<'_, M, O>,
    book: &Book<K>,
    key: K,
) -> Result<Option<u64>, MemoryRefusal>
    ensures { Works M.means O.items work.old work.new result (get_of (way_from K.first (book_keys book.now) key)) }
{
    let Some(reg) = lookup(work, book, key)? else {
        return Ok(None);
    };
    let value = work.value(reg)?;
    Ok(Some(value))
}

// Gives a key that is there a value, and answers whether it is there.
#[tactic(auto, unfolding(map_steps::specs::Find::set_of))]
pub fn set<M: PointerMemory, O: VersionOrder, K: Key>(
    work: &mut Working<'_, M, O>,
    book: &Book<K>,
    key: K,
    value: u64,
) -> Result<bool, MemoryRefusal>
    ensures { Works M.means O.items work.old work.new result (set_of (way_from K.first (book_keys book.now) key) value) }
{
    let Some(reg) = lookup(work, book, key)? else {
        return Ok(false);
    };
    set_value(work, reg, value)?;
    Ok(true)
}

// The register that holds the first node above a key, or the best so far; from the subtree under register d.
#[tactic(auto, unfolding(map_steps::specs::Find::seek_of))]
pub(crate) fn seek<M: PointerMemory, O: VersionOrder, K: Key>(
    work: &mut Working<'_, M, O>,
    book: &Book<K>,
    key: K,
    d: usize,
    best: Option<usize>,
) -> Result<Option<usize>, MemoryRefusal>
    ensures { Works M.means O.items work.old work.new result (seek_of (goes_left K.first (book_keys book.now) key) (25 - d) d best) }
{
    if d >= 25 {
        return Err(MemoryRefusal::OutOfRange);
    }
    if work.is_nil(d)? {
        return Ok(best);
    }
    let here = work.key(d)?;
    if goes_left(book, key, here) {
        work.follow(d, 0, d + 1)?;
        return seek(work, book, key, d + 1, Some(d));
    }
    work.follow(d, 1, d + 1)?;
    seek(work, book, key, d + 1, best)
}

// The first entry above a key, its key's place and its value, or nothing.
#[tactic(auto, using(crate::proofs::Pairs::next_paired), unfolding(crate::specs::Next::next_pair_of))]
pub fn next<M: PointerMemory, O: VersionOrder, K: Key>(
    work: &mut Working<'_, M, O>,
    book: &Book<K>,
    key: K,
) -> Result<Option<(u32, u64)>, MemoryRefusal>
    ensures runs { Works M.means O.items work.old work.new result (next_pair_of (goes_left K.first (book_keys book.now) key)) }
    ensures paired { NextPaired }
{
    work.load(0, 0)?;
    let Some(reg) = seek(work, book, key, 0, None)? else {
        return Ok(None);
    };
    let above = work.key(reg)?;
    let value = work.value(reg)?;
    Ok(Some((above, value)))
}
