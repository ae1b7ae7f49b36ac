// What the calls read first: a register, and the node that it holds.
ghost use Rattle.std.specs.Prelude.{◌≡◌, ◌<◌, true, vec_len};
ghost use Rattle.single.specs.Rows.{register_of, node_of};
ghost use Rattle.single.specs.Single.{RowAt};

use crate::node::Node;
use crate::store::SingleMemory;
use refusals::kinds::MemoryRefusal;

impl SingleMemory {
    // What a register holds.
    pub(crate) fn register(&self, reg: usize) -> Result<Option<u32>, MemoryRefusal>
        ensures { result ≡ register_of self.now.regs reg }
    {
        self.regs.get(reg).copied().ok_or(MemoryRefusal::OutOfRange)
    }

    // The node that a register holds.
    pub(crate) fn node(&self, reg: usize) -> Result<u32, MemoryRefusal>
        ensures { result ≡ node_of self.now.regs reg }
    {
        self.register(reg)?.ok_or(MemoryRefusal::NilRegister)
    }

    // The row of the node that a register holds. (`as usize` fits every u32; std has no `From` for it.)
    pub(crate) fn row(&self, reg: usize) -> Result<Node, MemoryRefusal>
        ensures { RowAt self.now reg result }
    {
        let k = self.node(reg)?;
        Ok(self.rows[k as usize])
    }
}
