// The calls of a single-version memory. It takes any order, and asks it nothing.
ghost use Rattle.std.specs.Prelude.{◌≡◌, true};
ghost use Rattle.single.specs.Single.{SingleMeans, SingleAlike};
ghost use Rattle.std.proofs.Common.{rules};

use crate::node::Node;
use crate::store::SingleMemory;
use memory::pointer::PointerMemory;
use order::VersionOrder;
use refusals::kinds::MemoryRefusal;

impl PointerMemory for SingleMemory {
    ghost means = { λ s items m. SingleMeans s m };

    ghost accepts = { λ s count. true };

    ghost alike = { λ s t. SingleAlike s t };

    ghost fits = { Prim.search rules };

    ghost likeness = { Prim.search rules };

    #[tactic(auto, unfolding(memory::specs::Steps::load_of))]
    fn load<O: VersionOrder>(
        &mut self,
        _order: &O,
        root: usize,
        reg: usize,
    ) -> Result<(), MemoryRefusal> {
        if root >= 3 || reg >= 40 {
            return Err(MemoryRefusal::OutOfRange);
        }
        self.regs[reg] = self.roots[root];
        Ok(())
    }

    #[tactic(auto, unfolding(memory::specs::Steps::follow_of))]
    fn follow<O: VersionOrder>(
        &mut self,
        _order: &O,
        from: usize,
        side: usize,
        reg: usize,
    ) -> Result<(), MemoryRefusal> {
        if side >= 2 || reg >= 40 {
            return Err(MemoryRefusal::OutOfRange);
        }
        let row = self.row(from)?;
        self.regs[reg] = row.links[side];
        Ok(())
    }

    #[tactic(auto, unfolding(memory::specs::Steps::move_of))]
    fn copy<O: VersionOrder>(
        &mut self,
        _order: &O,
        from: usize,
        reg: usize,
    ) -> Result<(), MemoryRefusal> {
        if from >= 40 || reg >= 40 {
            return Err(MemoryRefusal::OutOfRange);
        }
        self.regs[reg] = self.regs[from];
        Ok(())
    }

    fn key<O: VersionOrder>(&self, _order: &O, reg: usize) -> Result<u32, MemoryRefusal> {
        Ok(self.row(reg)?.key)
    }

    fn value<O: VersionOrder>(&self, _order: &O, reg: usize) -> Result<u64, MemoryRefusal> {
        Ok(self.row(reg)?.value)
    }

    fn mark<O: VersionOrder>(&self, _order: &O, reg: usize) -> Result<u32, MemoryRefusal> {
        Ok(self.row(reg)?.mark)
    }

    #[tactic(auto, unfolding(memory::specs::Steps::nil_of))]
    fn is_nil<O: VersionOrder>(&self, _order: &O, reg: usize) -> Result<bool, MemoryRefusal> {
        Ok(self.register(reg)?.is_none())
    }

    #[tactic(auto, unfolding(memory::specs::Steps::same_of))]
    fn same<O: VersionOrder>(&self, _order: &O, a: usize, b: usize) -> Result<bool, MemoryRefusal> {
        Ok(self.register(a)? == self.register(b)?)
    }

    #[tactic(auto, unfolding(memory::specs::Steps::make_of))]
    fn make<O: VersionOrder>(
        &mut self,
        _order: &O,
        reg: usize,
        key: u32,
        value: u64,
        mark: u32,
    ) -> Result<(), MemoryRefusal> {
        if reg >= 40 {
            return Err(MemoryRefusal::OutOfRange);
        }
        let k = self.made;
        if k >= self.node_limit {
            return Err(MemoryRefusal::NodesSpent);
        }
        self.regs[reg] = Some(k);
        self.rows[k as usize] = Node::new(key, value, mark);
        self.made = k + 1;
        Ok(())
    }

    #[tactic(auto, unfolding(memory::specs::Steps::save_of))]
    fn save<O: VersionOrder>(
        &mut self,
        _order: &O,
        root: usize,
        reg: usize,
    ) -> Result<(), MemoryRefusal> {
        if root >= 3 || reg >= 40 {
            return Err(MemoryRefusal::OutOfRange);
        }
        let to = self.regs[reg];
        self.rename(self.roots[root], to)?;
        self.roots[root] = to;
        Ok(())
    }

    #[tactic(auto, unfolding(memory::specs::Steps::link_of))]
    fn link<O: VersionOrder>(
        &mut self,
        _order: &O,
        from: usize,
        side: usize,
        reg: usize,
    ) -> Result<(), MemoryRefusal> {
        if side >= 2 || reg >= 40 {
            return Err(MemoryRefusal::OutOfRange);
        }
        let k = self.node(from)?;
        let old = self.rows[k as usize].links[side];
        let to = self.regs[reg];
        self.rename(old, to)?;
        self.rows[k as usize].links[side] = to;
        Ok(())
    }

    fn set_value<O: VersionOrder>(
        &mut self,
        _order: &O,
        reg: usize,
        value: u64,
    ) -> Result<(), MemoryRefusal> {
        let k = self.changing(reg)?;
        self.rows[k as usize].value = value;
        Ok(())
    }

    fn set_mark<O: VersionOrder>(
        &mut self,
        _order: &O,
        reg: usize,
        mark: u32,
    ) -> Result<(), MemoryRefusal> {
        let k = self.changing(reg)?;
        self.rows[k as usize].mark = mark;
        Ok(())
    }

    fn nodes_left(&self) -> u32 {
        self.node_limit - self.made
    }

    fn changes_left(&self) -> u32 {
        self.change_limit - self.changed
    }
}
