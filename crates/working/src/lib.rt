// A memory at work: it goes with the version order that it was made with, so that code in rows of calls names neither again at each call.
#![tactic(auto)]

ghost use Rattle.memory.specs.Promises.{Carries};
ghost use Rattle.memory.specs.Steps.{load_of, follow_of, move_of, key_of, number_of, nil_of, same_of, make_of, save_of, link_of, set_number_of};
ghost use Rattle.working.specs.Works.{Calls};

use memory::pointer::PointerMemory;
use order::VersionOrder;
use refusals::kinds::MemoryRefusal;

// A memory that is lent for a row of calls, and its order.
#[derive(Drop)]
pub struct Working<'a, M, O> {
    pub memory: &'a mut M,
    pub order: &'a O,
}

impl<'a, M: PointerMemory, O: VersionOrder> Working<'a, M, O> {
    // Puts a root into a register.
    pub fn load(&mut self, root: usize, reg: usize) -> Result<(), MemoryRefusal>
        ensures calls { Calls M.means O.items self.old self.new result (load_of root reg) }
        ensures alike { Carries M.alike self.old.memory.now self.new.memory.now }
    {
        self.memory.load(self.order, root, reg)
    }

    // Puts a link of a register's node into a register.
    pub fn follow(&mut self, from: usize, side: usize, reg: usize) -> Result<(), MemoryRefusal>
        ensures calls { Calls M.means O.items self.old self.new result (follow_of from side reg) }
        ensures alike { Carries M.alike self.old.memory.now self.new.memory.now }
    {
        self.memory.follow(self.order, from, side, reg)
    }

    // Copies a register.
    pub fn copy(&mut self, from: usize, reg: usize) -> Result<(), MemoryRefusal>
        ensures calls { Calls M.means O.items self.old self.new result (move_of from reg) }
        ensures alike { Carries M.alike self.old.memory.now self.new.memory.now }
    {
        self.memory.copy(self.order, from, reg)
    }

    // The key place of a register's node.
    pub fn key(&self, reg: usize) -> Result<u32, MemoryRefusal>
        ensures { Calls M.means O.items self.now self.now result (key_of reg) }
    {
        self.memory.key(self.order, reg)
    }

    // Its value.
    pub fn value(&self, reg: usize) -> Result<u64, MemoryRefusal>
        ensures { Calls M.means O.items self.now self.now result (number_of 0 reg) }
    {
        self.memory.value(self.order, reg)
    }

    // Its mark.
    pub fn mark(&self, reg: usize) -> Result<u32, MemoryRefusal>
        ensures { Calls M.means O.items self.now self.now result (number_of 1 reg) }
    {
        self.memory.mark(self.order, reg)
    }

    // Whether a register is nil.
    pub fn is_nil(&self, reg: usize) -> Result<bool, MemoryRefusal>
        ensures { Calls M.means O.items self.now self.now result (nil_of reg) }
    {
        self.memory.is_nil(self.order, reg)
    }

    // Whether two registers hold the same.
    pub fn same(&self, a: usize, b: usize) -> Result<bool, MemoryRefusal>
        ensures { Calls M.means O.items self.now self.now result (same_of a b) }
    {
        self.memory.same(self.order, a, b)
    }

    // Puts a new node, both links nil, into a register.
    pub fn make(&mut self, reg: usize, key: u32, value: u64, mark: u32) -> Result<(), MemoryRefusal>
        ensures { Calls M.means O.items self.old self.new result (make_of reg key value mark) }
    {
        self.memory.make(self.order, reg, key, value, mark)
    }

    // Writes a root from a register.
    pub fn save(&mut self, root: usize, reg: usize) -> Result<(), MemoryRefusal>
        ensures { Calls M.means O.items self.old self.new result (save_of root reg) }
    {
        self.memory.save(self.order, root, reg)
    }

    // Writes a link of a register's node from a register.
    pub fn link(&mut self, from: usize, side: usize, reg: usize) -> Result<(), MemoryRefusal>
        ensures { Calls M.means O.items self.old self.new result (link_of from side reg) }
    {
        self.memory.link(self.order, from, side, reg)
    }

    // Writes the value of a register's node.
    pub fn set_value(&mut self, reg: usize, value: u64) -> Result<(), MemoryRefusal>
        ensures { Calls M.means O.items self.old self.new result (set_number_of 0 reg value) }
    {
        self.memory.set_value(self.order, reg, value)
    }

    // Writes its mark.
    pub fn set_mark(&mut self, reg: usize, mark: u32) -> Result<(), MemoryRefusal>
        ensures { Calls M.means O.items self.old self.new result (set_number_of 1 reg mark) }
    {
        self.memory.set_mark(self.order, reg, mark)
    }
}
