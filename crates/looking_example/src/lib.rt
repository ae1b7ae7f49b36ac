// A look at another version: code that enters a version, asks, and comes back leaves the memory equal to what it was. It takes the memory
// and its order, and no `Working`: what is promised is that the memory itself is equal, and two functions name it.
#![tactic(auto)]

ghost use Rattle.memory.specs.Memory.{Memory};
ghost use Rattle.memory.specs.Promises.{Runs, Carries};
ghost use Rattle.looking_example.specs.Looks.{root_nil_of, Looks, Resting};

use memory::pointer::PointerMemory;
use memory::versioned::VersionedMemory;
use order::VersionOrder;
use refusals::kinds::MemoryRefusal;

// Whether root 0 of the working version is nil.
fn root_is_nil<M: PointerMemory, O: VersionOrder>(
    mem: &mut M,
    order: &O,
) -> Result<bool, MemoryRefusal>
    ensures runs { Runs (λ s. M.means s (O.items order.now)) mem.old mem.new result root_nil_of }
    ensures alike { Carries M.alike mem.old mem.new }
{
    mem.load(order, 0, 0)?;
    mem.is_nil(order, 0)
}

// Whether root 0 of the version v is nil, asked from the version `back`.
pub fn look<M: VersionedMemory, O: VersionOrder>(
    mem: &mut M,
    order: &O,
    v: u32,
    back: u32,
) -> Result<bool, MemoryRefusal>
    ensures { (m : Memory) → M.means mem.old (O.items order.now) m → Resting back m → Looks v mem.old mem.new result m }
{
    mem.enter(order, v)?;
    let empty = root_is_nil(mem, order);
    mem.enter(order, back)?;
    empty
}
