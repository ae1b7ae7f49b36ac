// Calls that map and queues share, over any memory and any order: writes that are made only where they alter something, rotation, and
// the links of a node taken out. Each runs its row of steps, from whatever its memory means.
//
// Functions and no methods, since `Working` lies in a crate below; unlike its methods of the same names, `set_mark`, `save` and `set_value` read first.
// Registers are numbers, as in the rows of steps, which each function repeats word for word: names for them would be unfolded in each row again.
// A side is a bool, as in the pure trees: an enum would bring a `not`, a conversion and a translation into each contract of the trees' crates.
// The register and the side change apart, one level down or on the other side: a struct of both would be made anew at each call.
#![tactic(auto)]

ghost use Rattle.working.specs.Works.{Works};
ghost use Rattle.stored.specs.Writes.{relink_of, renumber_of, resave_of, rotate_of, blank_of};

use memory::pointer::PointerMemory;
use order::VersionOrder;
use refusals::kinds::MemoryRefusal;
use working::Working;

// Writes the link on a side of register d's node from register r, where it differs.
#[tactic(auto, unfolding(stored::specs::Writes::relink_of))]
pub fn relink<M: PointerMemory, O: VersionOrder>(
    work: &mut Working<'_, M, O>,
    d: usize,
    right: bool,
    r: usize,
) -> Result<(), MemoryRefusal>
    ensures { Works M.means O.items work.old work.new result (relink_of d right r) }
{
    let side = usize::from(right);
    work.follow(d, side, 32)?;
    if work.same(32, r)? {
        return Ok(());
    }
    work.link(d, side, r)
}

// Writes the mark of register d's node, where it differs. The four writes read, compare and write each in a call of its own and at its own
// width: one function for them would take the reading and the writing as closures, for these two lines.
#[tactic(auto, unfolding(stored::specs::Writes::renumber_of))]
pub fn set_mark<M: PointerMemory, O: VersionOrder>(
    work: &mut Working<'_, M, O>,
    d: usize,
    mark: u32,
) -> Result<(), MemoryRefusal>
    ensures { Works M.means O.items work.old work.new result (renumber_of 1 d mark) }
{
    if work.mark(d)? == mark {
        return Ok(());
    }
    work.set_mark(d, mark)
}

// Writes a root from register r, where it differs.
#[tactic(auto, unfolding(stored::specs::Writes::resave_of))]
pub fn save<M: PointerMemory, O: VersionOrder>(
    work: &mut Working<'_, M, O>,
    root: usize,
    r: usize,
) -> Result<(), MemoryRefusal>
    ensures { Works M.means O.items work.old work.new result (resave_of root r) }
{
    work.load(root, 32)?;
    if work.same(32, r)? {
        return Ok(());
    }
    work.save(root, r)
}

// Writes the value of register d's node, where it differs.
#[tactic(auto, unfolding(stored::specs::Writes::renumber_of))]
pub fn set_value<M: PointerMemory, O: VersionOrder>(
    work: &mut Working<'_, M, O>,
    d: usize,
    value: u64,
) -> Result<(), MemoryRefusal>
    ensures { Works M.means O.items work.old work.new result (renumber_of 0 d value) }
{
    if work.value(d)? == value {
        return Ok(());
    }
    work.set_value(d, value)
}

// Both links of a node that is taken out become nil, even where they are; register 35 is nil.
#[tactic(auto, unfolding(stored::specs::Writes::blank_of))]
pub fn blank<M: PointerMemory, O: VersionOrder>(
    work: &mut Working<'_, M, O>,
    r: usize,
) -> Result<(), MemoryRefusal>
    ensures { Works M.means O.items work.old work.new result (blank_of r) }
{
    work.link(r, 0, 35)?;
    work.link(r, 1, 35)
}

// The child on a side of register d's node becomes the root under that register. Both links that are written hold something else before.
#[tactic(auto, unfolding(stored::specs::Writes::rotate_of))]
pub fn rotate<M: PointerMemory, O: VersionOrder>(
    work: &mut Working<'_, M, O>,
    d: usize,
    right: bool,
) -> Result<(), MemoryRefusal>
    ensures { Works M.means O.items work.old work.new result (rotate_of d right) }
{
    let near = usize::from(right);
    let far = usize::from(!right);
    work.follow(d, near, 30)?;
    work.follow(30, far, 31)?;
    work.link(d, near, 31)?;
    work.link(30, far, d)?;
    work.copy(30, d)
}
