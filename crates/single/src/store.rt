// The single-version memory itself, with what always holds of its table.
ghost use Rattle.std.specs.Prelude.{◌≡◌, ℕ, ◌<◌, ◌≤◌, true, length, vec_len, slice_index_or};
ghost use Rattle.single.specs.declared.node.Node.{Node as Row};
ghost use Rattle.single.specs.Rows.{all_below};

use crate::node::Node;

// Roots and registers, the table of nodes by serial numbers, the counts and the limits. Every root, register and link names a node
// that was made, and no node has more than two names. The rows are given whole at making, so their number made stands beside them.
#[derive(Drop)]
pub struct SingleMemory {
    pub(crate) roots: [Option<u32>; 3],
    pub(crate) regs: [Option<u32>; 40],
    pub(crate) rows: Vec<Node>,
    pub(crate) made: u32,
    pub(crate) changed: u32,
    pub(crate) node_limit: u32,
    pub(crate) change_limit: u32,
    ghost few: { made ≤ node_limit },
    ghost roomy: { node_limit ≤ vec_len rows },
    ghost spent: { changed ≤ change_limit },
    ghost rooted: { all_below made roots ≡ true },
    ghost held: { all_below made regs ≡ true },
    ghost linked: { ((i : ℕ) (d : Row) → i < made → all_below made (slice_index_or rows.items i d).links ≡ true) },
    ghost two: { ((i : ℕ) (d : Row) → i < made → length (slice_index_or rows.items i d).links ≡ 2) },
    ghost named: { ((i : ℕ) (d : Row) → i < made → (slice_index_or rows.items i d).names ≤ 2) },
}
