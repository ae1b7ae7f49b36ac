// What the calls that change a node, a link or a root do first: a change is counted. Refused, they leave the memory as it was.
ghost use Rattle.std.specs.Prelude.{◌≡◌, true};
ghost use Rattle.single.specs.Rows.{below, change_left};
ghost use Rattle.single.specs.Single.{ChangingIs, RenameIs};

use crate::names::{crowded, lower, raise};
use crate::store::SingleMemory;
use refusals::kinds::MemoryRefusal;

impl SingleMemory {
    // Refuses where no change is left.
    fn has_change_left(&self) -> Result<(), MemoryRefusal>
        ensures { result ≡ change_left self.now.changed self.now.change_limit }
    {
        if self.changed >= self.change_limit {
            return Err(MemoryRefusal::ChangesSpent);
        }
        Ok(())
    }

    // The node that a register holds, for a change of its value or mark.
    pub(crate) fn changing(&mut self, reg: usize) -> Result<u32, MemoryRefusal>
        ensures { ChangingIs self.old self.new reg result }
    {
        let k = self.node(reg)?;
        self.has_change_left()?;
        self.changed += 1;
        Ok(k)
    }

    // One name less for the node `old`, and one more for the node `to`, for a link or root that held `old` and is to hold `to`.
    pub(crate) fn rename(&mut self, old: Option<u32>, to: Option<u32>) -> Result<(), MemoryRefusal>
        requires held { below self.old.made old ≡ true }
        requires known { below self.old.made to ≡ true }
        ensures { RenameIs self.old self.new old to result }
    {
        self.has_change_left()?;
        if crowded(&self.rows, old, to) {
            return Err(MemoryRefusal::ThirdName);
        }
        raise(&mut self.rows, to);
        lower(&mut self.rows, old);
        self.changed += 1;
        Ok(())
    }
}
