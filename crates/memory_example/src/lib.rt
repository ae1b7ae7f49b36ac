// A linked list over any memory and any order: generic code in rows of calls, and what its rows come to.
#![tactic(auto)]

ghost use Rattle.memory.specs.Promises.{Carries};
ghost use Rattle.working.specs.Works.{Works};
ghost use Rattle.memory_example.specs.Chains.{push_of, advance_of, value_at_of, two_of, PushLists, WalkAnswers};

use memory::pointer::PointerMemory;
use order::VersionOrder;
use refusals::kinds::MemoryRefusal;
use working::Working;

// Puts a new node in front of the list under root 0.
#[tactic(auto, unfolding(crate::specs::Chains::push_of))]
pub fn push<M: PointerMemory, O: VersionOrder>(
    work: &mut Working<'_, M, O>,
    key: u32,
    value: u64,
) -> Result<(), MemoryRefusal>
    ensures { Works M.means O.items work.old work.new result (push_of key value) }
{
    work.make(0, key, value, 0)?;
    work.load(0, 1)?;
    work.link(0, 1, 1)?;
    work.save(0, 0)
}

// Goes so many nodes on, in register 0. It calls itself, as its row of steps does: a loop would need an invariant that says the same.
#[tactic(auto, unfolding(crate::specs::Chains::advance_of))]
fn advance<M: PointerMemory, O: VersionOrder>(
    work: &mut Working<'_, M, O>,
    steps: usize,
) -> Result<(), MemoryRefusal>
    ensures runs { Works M.means O.items work.old work.new result (advance_of steps) }
    ensures alike { Carries M.alike work.old.memory.now work.new.memory.now }
{
    if steps == 0 {
        return Ok(());
    }
    work.follow(0, 1, 0)?;
    advance(work, steps - 1)
}

// The value of the node at a place, the first at 0. Nothing but registers is moved.
#[tactic(auto, unfolding(crate::specs::Chains::value_at_of))]
pub fn value_at<M: PointerMemory, O: VersionOrder>(
    work: &mut Working<'_, M, O>,
    place: usize,
) -> Result<u64, MemoryRefusal>
    ensures runs { Works M.means O.items work.old work.new result (value_at_of place) }
    ensures alike { Carries M.alike work.old.memory.now work.new.memory.now }
{
    work.load(0, 0)?;
    advance(work, place)?;
    work.value(0)
}

// Pushes 7 and then 9, and answers the values at the first two places.
#[tactic(auto, unfolding(crate::specs::Chains::two_of))]
pub fn two_values<M: PointerMemory, O: VersionOrder>(
    work: &mut Working<'_, M, O>,
) -> Result<(u64, u64), MemoryRefusal>
    ensures { Works M.means O.items work.old work.new result two_of }
{
    push(work, 1, 7)?;
    push(work, 2, 9)?;
    let first = value_at(work, 0)?;
    let second = value_at(work, 1)?;
    Ok((first, second))
}

// The rows do what a linked list is for.
pub fn lists_hold() -> u8
    ensures push { PushLists }
    ensures walk { WalkAnswers }
{
    0
}
