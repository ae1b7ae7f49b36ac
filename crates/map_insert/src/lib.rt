// Insertion into the map's tree, over any key type, memory and order. Each call runs its row of steps, from whatever its memory means.
// Half of the calls, and all below them, use no book: a struct of memory and book would be taken apart at each call of the trees.
// `insert` has tested once that d is below 25: a type that carries this would be opened in each row to name the registers d and d + 1.
#![tactic(auto)]

ghost use Rattle.std.specs.Prelude.{◌-◌, ◌<◌};
ghost use Rattle.books.specs.Books.{book_keys};
ghost use Rattle.memory.specs.Promises.{Runs};
ghost use Rattle.working.specs.Works.{Works};
ghost use Rattle.places.specs.Places.{goes_left};
ghost use Rattle.map_steps.specs.Insert.{red_of, recolour_of, straighten_of, raise_of, rotations_of, red_pair_of, insert_fix_of, insert_of, add_of};
ghost use Rattle.map_insert.specs.Levels.{red_child_of};

use books::book::Book;
use keys::key::Key;
use memory::pointer::PointerMemory;
use order::VersionOrder;
use places::goes_left;
use refusals::kinds::MemoryRefusal;
use tree_calls::{relink, rotate, save, set_mark};
use working::Working;

// Whether a register's node is red; nil is black. The rank of the queues has the same first line and another answer: a row of steps for
// both would be no shorter than this body. It is for a memory that is lent without `mut`, which no `Working` holds.
#[tactic(auto, unfolding(map_steps::specs::Insert::red_of))]
pub fn is_red_in<M: PointerMemory, O: VersionOrder>(
    mem: &M,
    order: &O,
    reg: usize,
) -> Result<bool, MemoryRefusal>
    ensures { Runs (λ s. M.means s (O.items order.now)) mem.now mem.now result (red_of reg) }
{
    if mem.is_nil(order, reg)? {
        return Ok(false);
    }
    Ok(mem.mark(order, reg)? == 1)
}

// The same of a memory at work.
pub fn is_red<M: PointerMemory, O: VersionOrder>(
    work: &Working<'_, M, O>,
    reg: usize,
) -> Result<bool, MemoryRefusal>
    ensures { Works M.means O.items work.now work.now result (red_of reg) }
{
    is_red_in(work.memory, work.order, reg)
}

// The red child in register d + 1 and its red sibling in register 28 become black, their parent red.
#[tactic(auto, unfolding(map_steps::specs::Insert::recolour_of))]
pub(crate) fn recolour<M: PointerMemory, O: VersionOrder>(
    work: &mut Working<'_, M, O>,
    d: usize,
) -> Result<(), MemoryRefusal>
    requires { d < 25 }
    ensures { Works M.means O.items work.old work.new result (recolour_of d) }
{
    set_mark(work, d + 1, 0)?;
    set_mark(work, 28, 0)?;
    set_mark(work, d, 1)
}

// The inner child of the child on a side is rotated outwards.
#[tactic(auto, unfolding(map_steps::specs::Insert::straighten_of))]
pub(crate) fn straighten<M: PointerMemory, O: VersionOrder>(
    work: &mut Working<'_, M, O>,
    d: usize,
    right: bool,
) -> Result<(), MemoryRefusal>
    requires { d < 25 }
    ensures { Works M.means O.items work.old work.new result (straighten_of d right) }
{
    rotate(work, d + 1, !right)?;
    relink(work, d, right, d + 1)
}

// The child on a side is rotated above its parent, which becomes red, the child black.
#[tactic(auto, unfolding(map_steps::specs::Insert::raise_of))]
pub(crate) fn raise<M: PointerMemory, O: VersionOrder>(
    work: &mut Working<'_, M, O>,
    d: usize,
    right: bool,
) -> Result<(), MemoryRefusal>
    ensures { Works M.means O.items work.old work.new result (raise_of d right) }
{
    set_mark(work, d, 1)?;
    rotate(work, d, right)?;
    set_mark(work, d, 0)
}

// Two red nodes below one another, the lower one inside or outside, become siblings under a black one. `inner` is what was read, here and
// below, and no choice of the caller: as a closure it would be made from the same bool.
#[tactic(auto, unfolding(map_steps::specs::Insert::rotations_of))]
pub(crate) fn turn<M: PointerMemory, O: VersionOrder>(
    work: &mut Working<'_, M, O>,
    d: usize,
    right: bool,
    inner: bool,
) -> Result<(), MemoryRefusal>
    requires { d < 25 }
    ensures { Works M.means O.items work.old work.new result (rotations_of d right inner) }
{
    if inner {
        straighten(work, d, right)?;
    }
    raise(work, d, right)
}

// Puts two red nodes below one another right, by the colour of the upper one's sibling.
#[tactic(auto, unfolding(map_steps::specs::Insert::red_pair_of))]
pub(crate) fn red_pair<M: PointerMemory, O: VersionOrder>(
    work: &mut Working<'_, M, O>,
    d: usize,
    right: bool,
    inner: bool,
) -> Result<(), MemoryRefusal>
    requires { d < 25 }
    ensures { Works M.means O.items work.old work.new result (red_pair_of d right inner) }
{
    let far = usize::from(!right);
    work.follow(d, far, 28)?;
    if is_red(work, 28)? {
        return recolour(work, d);
    }
    turn(work, d, right, inner)
}

// The child on a side is red: where one of its own children is red too, both are put right.
#[tactic(auto, unfolding(crate::specs::Levels::red_child_of))]
pub(crate) fn red_child<M: PointerMemory, O: VersionOrder>(
    work: &mut Working<'_, M, O>,
    d: usize,
    right: bool,
) -> Result<(), MemoryRefusal>
    requires { d < 25 }
    ensures { Works M.means O.items work.old work.new result (red_child_of d right) }
{
    let outwards = usize::from(right);
    let inwards = usize::from(!right);
    work.follow(d + 1, outwards, 26)?;
    work.follow(d + 1, inwards, 27)?;
    let outer = is_red(work, 26)?;
    let inner = is_red(work, 27)?;
    if outer || inner {
        red_pair(work, d, right, inner)
    } else {
        Ok(())
    }
}

// Puts the tree under a black node right, where the child on a side is red and has a red child.
#[tactic(auto, unfolding(map_steps::specs::Insert::insert_fix_of, crate::specs::Levels::red_child_of))]
pub(crate) fn insert_fix<M: PointerMemory, O: VersionOrder>(
    work: &mut Working<'_, M, O>,
    d: usize,
    right: bool,
) -> Result<(), MemoryRefusal>
    requires { d < 25 }
    ensures { Works M.means O.items work.old work.new result (insert_fix_of d right) }
{
    if is_red(work, d)? {
        return Ok(());
    }
    if is_red(work, d + 1)? {
        return red_child(work, d, right);
    }
    Ok(())
}

// Puts a new red node at the bottom of the way to its key, and the nodes above it right.
#[tactic(auto, unfolding(map_steps::specs::Insert::insert_of))]
pub(crate) fn insert<M: PointerMemory, O: VersionOrder, K: Key>(
    work: &mut Working<'_, M, O>,
    book: &Book<K>,
    key: K,
    place: u32,
    value: u64,
    d: usize,
) -> Result<(), MemoryRefusal>
    ensures { Works M.means O.items work.old work.new result (insert_of (goes_left K.first (book_keys book.now) key) place value (25 - d) d) }
{
    if d >= 25 {
        return Err(MemoryRefusal::OutOfRange);
    }
    if work.is_nil(d)? {
        return work.make(d, place, value, 1);
    }
    let here = work.key(d)?;
    let right = !goes_left(book, key, here);
    let side = usize::from(right);
    work.follow(d, side, d + 1)?;
    insert(work, book, key, place, value, d + 1)?;
    relink(work, d, right, d + 1)?;
    insert_fix(work, d, right)
}

// Puts a key that is not there into the map, with its place in the book and a value.
#[tactic(auto, unfolding(map_steps::specs::Insert::add_of))]
pub fn add<M: PointerMemory, O: VersionOrder, K: Key>(
    work: &mut Working<'_, M, O>,
    book: &Book<K>,
    key: K,
    place: u32,
    value: u64,
) -> Result<(), MemoryRefusal>
    ensures { Works M.means O.items work.old work.new result (add_of (goes_left K.first (book_keys book.now) key) place value) }
{
    work.load(0, 0)?;
    insert(work, book, key, place, value, 0)?;
    set_mark(work, 0, 0)?;
    save(work, 0, 0)
}
