// Removal from the map's tree, over any key, any memory and any order. Each function runs its row of steps, from whatever its memory means;
// where it answers, it tells whether the tree under register d is one black node short. Register d holds the root of the subtree at
// depth d, at most 24, and register 35 is nil. Memory, book and key stand apart, as in the crate `map`, and so do register and side, which change
// apart from one level to the next.
#![tactic(auto)]

ghost use Rattle.working.specs.Works.{Works, working_means};
ghost use Rattle.books.specs.Books.{book_keys};
ghost use Rattle.places.specs.Places.{way_from};
ghost use Rattle.map_steps.specs.Remove.{spliced_of, take_of, first_of, replace_of, swap_out_of, root_out_of, remove_of, drop_of};
ghost use Rattle.map_remove.specs.Taking.{unlink_of};
ghost use Rattle.map_remove.specs.Dropping.{Drops};
ghost use Rattle.std.specs.Prelude.{◌+◌, ◌-◌};

use books::book::Book;
use keys::key::Key;
use map_fixes::{short_fix, step_up};
use map_insert::is_red;
use memory::pointer::PointerMemory;
use order::VersionOrder;
use places::way;
use refusals::kinds::MemoryRefusal;
use tree_calls::{blank, relink, save, set_mark};
use working::Working;

// A node is gone, and what was below it stands in its place: where both are black, the whole is short.
#[tactic(auto, unfolding(map_steps::specs::Remove::spliced_of))]
fn spliced<M: PointerMemory, O: VersionOrder>(
    work: &mut Working<'_, M, O>,
    d: usize,
    red: bool,
) -> Result<bool, MemoryRefusal>
    ensures { Works M.means O.items work.old work.new result (spliced_of d red) }
{
    if red {
        return Ok(false);
    }
    if !is_red(work, d)? {
        return Ok(true);
    }
    set_mark(work, d, 0)?;
    Ok(false)
}

// Clears the links of the node in register 36: both where it is taken out, else the one to its child. `out` is in the row of steps too: as a
// closure, here or where a node is taken, the step would bring a clause of its own for one `if`.
#[tactic(auto, unfolding(crate::specs::Taking::unlink_of))]
fn unlink<M: PointerMemory, O: VersionOrder>(
    work: &mut Working<'_, M, O>,
    out: bool,
    right: bool,
) -> Result<(), MemoryRefusal>
    ensures { Works M.means O.items work.old work.new result (unlink_of out right) }
{
    if out {
        return blank(work, 36);
    }
    relink(work, 36, right, 35)
}

// The node under d, with one child at most, on a side, leaves its place to the child and goes into register 36.
#[tactic(auto, unfolding(map_steps::specs::Remove::take_of))]
fn take<M: PointerMemory, O: VersionOrder>(
    work: &mut Working<'_, M, O>,
    out: bool,
    d: usize,
    right: bool,
) -> Result<bool, MemoryRefusal>
    ensures { Works M.means O.items work.old work.new result (take_of out d right) }
{
    work.copy(d, 36)?;
    let red = is_red(work, 36)?;
    work.follow(36, usize::from(right), d)?;
    unlink(work, out, right)?;
    spliced(work, d, red)
}

// The first node of the tree under d leaves its place, into register 36.
#[tactic(auto, unfolding(map_steps::specs::Remove::first_of))]
fn take_first<M: PointerMemory, O: VersionOrder>(
    work: &mut Working<'_, M, O>,
    d: usize,
) -> Result<bool, MemoryRefusal>
    ensures { Works M.means O.items work.old work.new result (first_of (25 - d) d) }
{
    if d >= 25 {
        return Err(MemoryRefusal::OutOfRange);
    }
    work.follow(d, 0, d + 1)?;
    if work.is_nil(d + 1)? {
        return take(work, false, d, true);
    }
    let short = take_first(work, d + 1)?;
    step_up(work, d, false, short)
}

// The node of register 36 takes the place and colour of the one under d, whose children are in registers 37 and d + 1.
#[tactic(auto, unfolding(map_steps::specs::Remove::replace_of))]
fn replace<M: PointerMemory, O: VersionOrder>(
    work: &mut Working<'_, M, O>,
    d: usize,
    red: bool,
) -> Result<(), MemoryRefusal>
    ensures { Works M.means O.items work.old work.new result (replace_of d red) }
{
    if d >= 40 {
        return Err(MemoryRefusal::OutOfRange);
    }
    blank(work, d)?;
    relink(work, 36, false, 37)?;
    relink(work, 36, true, d + 1)?;
    set_mark(work, 36, u32::from(red))?;
    work.copy(36, d)
}

// The node under d, with two children, is taken out: the first node of its right side takes its place.
#[tactic(auto, unfolding(map_steps::specs::Remove::swap_out_of))]
fn swap_out<M: PointerMemory, O: VersionOrder>(
    work: &mut Working<'_, M, O>,
    d: usize,
) -> Result<bool, MemoryRefusal>
    ensures { Works M.means O.items work.old work.new result (swap_out_of (25 - (d + 1)) d) }
{
    if d >= 40 {
        return Err(MemoryRefusal::OutOfRange);
    }
    let red = is_red(work, d)?;
    let short = take_first(work, d + 1)?;
    replace(work, d, red)?;
    if short {
        return short_fix(work, d, true);
    }
    Ok(false)
}

// The node under d is taken out.
#[tactic(auto, unfolding(map_steps::specs::Remove::root_out_of))]
fn root_out<M: PointerMemory, O: VersionOrder>(
    work: &mut Working<'_, M, O>,
    d: usize,
) -> Result<bool, MemoryRefusal>
    ensures { Works M.means O.items work.old work.new result (root_out_of (25 - (d + 1)) d) }
{
    if d >= 40 {
        return Err(MemoryRefusal::OutOfRange);
    }
    work.follow(d, 1, d + 1)?;
    if work.is_nil(d + 1)? {
        return take(work, true, d, false);
    }
    work.follow(d, 0, 37)?;
    if work.is_nil(37)? {
        return take(work, true, d, true);
    }
    swap_out(work, d)
}

// The node with a key is taken out of the tree under d.
#[tactic(auto, unfolding(map_steps::specs::Remove::remove_of))]
fn remove<M: PointerMemory, O: VersionOrder, K: Key>(
    work: &mut Working<'_, M, O>,
    book: &Book<K>,
    key: K,
    d: usize,
) -> Result<bool, MemoryRefusal>
    ensures { Works M.means O.items work.old work.new result (remove_of (way_from K.first (book_keys book.now) key) (25 - d) d) }
{
    if d >= 25 {
        return Err(MemoryRefusal::OutOfRange);
    }
    let here = work.key(d)?;
    let Some(right) = way(book, key, here) else {
        return root_out(work, d);
    };
    work.follow(d, usize::from(right), d + 1)?;
    let short = remove(work, book, key, d + 1)?;
    step_up(work, d, right, short)
}

// The node with a key is taken out of the tree at root 0.
#[tactic(auto, unfolding(map_steps::specs::Remove::drop_of))]
fn drop_row<M: PointerMemory, O: VersionOrder, K: Key>(
    work: &mut Working<'_, M, O>,
    book: &Book<K>,
    key: K,
) -> Result<(), MemoryRefusal>
    ensures { Works M.means O.items work.old work.new result (drop_of (way_from K.first (book_keys book.now) key)) }
{
    work.load(0, 0)?;
    let _ = remove(work, book, key, 0)?;
    save(work, 0, 0)
}

// Takes a key that is there out of the map.
#[tactic(auto, unfolding(map_steps::specs::Remove::drop_of))]
pub fn drop_key<M: PointerMemory, O: VersionOrder, K: Key>(
    work: &mut Working<'_, M, O>,
    book: &Book<K>,
    key: K,
) -> Result<(), MemoryRefusal>
    ensures runs { Works M.means O.items work.old work.new result (drop_of (way_from K.first (book_keys book.now) key)) }
    ensures drops { Drops (working_means M.means O.items) work.old work.new result K.first (book_keys book.now) key }
{
    drop_row(work, book, key)
}
