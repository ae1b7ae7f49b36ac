// One level of a merge, over any memory and any order. Each function runs its row of steps, from whatever its memory means.
ghost use Rattle.std.specs.Prelude.{◌<◌};
ghost use Rattle.working.specs.Works.{Works};
ghost use Rattle.queue_steps.specs.Merge.{rank_of, ranked_of, hang_of, swap_of};

use memory::pointer::PointerMemory;
use order::VersionOrder;
use refusals::kinds::MemoryRefusal;
use tree_calls::{relink, set_mark};
use working::Working;

// The rank of a register's node; nil has rank 0.
#[tactic(auto, unfolding(queue_steps::specs::Merge::rank_of))]
fn rank<M: PointerMemory, O: VersionOrder>(
    work: &Working<'_, M, O>,
    r: usize,
) -> Result<u32, MemoryRefusal>
    ensures { Works M.means O.items work.now work.now result (rank_of r) }
{
    if work.is_nil(r)? {
        return Ok(0);
    }
    work.mark(r)
}

// The mark of register d's node becomes one more than the rank of its right child.
#[tactic(auto, unfolding(queue_steps::specs::Merge::ranked_of, queue_steps::specs::Merge::next_rank_of))]
fn ranked<M: PointerMemory, O: VersionOrder>(
    work: &mut Working<'_, M, O>,
    d: usize,
    right: u32,
) -> Result<(), MemoryRefusal>
    ensures { Works M.means O.items work.old work.new result (ranked_of d right) }
{
    let rank = right.checked_add(1).ok_or(MemoryRefusal::OutOfRange)?;
    set_mark(work, d, rank)
}

// The node of register d gets what is in register d + 1 as a child, the larger rank on the left.
#[tactic(auto, unfolding(queue_steps::specs::Merge::hang_of))]
pub(crate) fn hang<M: PointerMemory, O: VersionOrder>(
    work: &mut Working<'_, M, O>,
    d: usize,
) -> Result<(), MemoryRefusal>
    requires { d < 40 }
    ensures { Works M.means O.items work.old work.new result (hang_of d) }
{
    work.follow(d, 0, 38)?;
    let left = rank(work, 38)?;
    let right = rank(work, d + 1)?;
    if right <= left {
        relink(work, d, true, d + 1)?;
        return ranked(work, d, right);
    }
    relink(work, d, false, d + 1)?;
    relink(work, d, true, 38)?;
    ranked(work, d, left)
}

// The heaps of registers d and 39 change places.
#[tactic(auto, unfolding(queue_steps::specs::Merge::swap_of))]
pub(crate) fn swap<M: PointerMemory, O: VersionOrder>(
    work: &mut Working<'_, M, O>,
    d: usize,
) -> Result<(), MemoryRefusal>
    ensures { Works M.means O.items work.old work.new result (swap_of d) }
{
    work.copy(d, 38)?;
    work.copy(39, d)?;
    work.copy(38, 39)
}
