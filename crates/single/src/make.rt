// The maker of single-version memories.
ghost use Rattle.std.specs.Prelude.{◌≡◌, vec_len};
ghost use Rattle.single.specs.Making.{MadeIs, make_refusal};

use crate::node::Node;
use crate::store::SingleMemory;
use refusals::kinds::MakerRefusal;

impl SingleMemory {
    // A fresh memory for so many nodes and changes, in the given table; refused, the table is handed back.
    pub fn make(
        nodes: u32,
        changes: u32,
        table: Vec<Node>,
    ) -> Result<Self, (MakerRefusal, Vec<Node>)>
        ensures { MadeIs nodes changes table result (make_refusal nodes changes (vec_len table)) }
    {
        if !(1..=4096).contains(&nodes) || !(160..=16384).contains(&changes) {
            return Err((MakerRefusal::LimitOutOfRange, table));
        }
        if table.len() < nodes as usize {
            return Err((MakerRefusal::TableTooShort, table));
        }
        Ok(SingleMemory {
            roots: [None; 3],
            regs: [None; 40],
            rows: table,
            made: 0,
            changed: 0,
            node_limit: nodes,
            change_limit: changes,
        })
    }
}
