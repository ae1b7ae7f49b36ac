// Runs a line about versions over any versioned memory and any order.
ghost use Rattle.memory.specs.Promises.{Does};
ghost use Rattle.memory_lines.specs.Replies.{version_step};

use crate::line::{Reply, VersionLine};
use memory::versioned::VersionedMemory;
use order::VersionOrder;
use refusals::kinds::MemoryRefusal;

// Opens, enters or closes a version; a refused line leaves memory and order as they were.
pub fn run_version<M: VersionedMemory, O: VersionOrder>(
    mem: &mut M,
    order: &mut O,
    line: VersionLine,
) -> Result<Reply, MemoryRefusal>
    ensures { Does (λ (p : M × O). M.means p.0 (O.items p.1)) (mem.old, order.old) (mem.new, order.new) result (version_step (O.limit order.old) line) }
{
    match line {
        VersionLine::Open(a) => mem.open(order, a).map(Reply::NewVersion),
        VersionLine::Enter(v) => mem.enter(order, v).map(|()| Reply::Done),
        VersionLine::Close => mem.close(order).map(|()| Reply::Done),
    }
}
