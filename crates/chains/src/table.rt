// The table of chains: each chain keeps the entries of one owner, and all share the rows.
ghost use Rattle.std.specs.Prelude.{◌≤◌, vec_len};
ghost use Rattle.chain_rows.specs.Sound.{Sound};

use chain_rows::row::{Chain, EntryRow};

mod ops;

// The chains, of which the first made are in use, and the rows of their entries, of which the first used are taken; versions is how many
// versions there are. What the table keeps does not depend on the order. A chain goes from row to row by index, in tables that are given
// at the making: no call allocates, and the bound is on the entries of all chains together.
pub struct ChainTable {
    chains: Vec<Chain>,
    rows: Vec<EntryRow>,
    made: u32,
    used: usize,
    versions: u32,
    ghost fits: { made ≤ vec_len chains },
    ghost taken: { used ≤ vec_len rows },
    ghost few: { vec_len chains ≤ 20481 },
    ghost many: { vec_len rows ≤ 163840 },
    ghost sound: { ∥ Sound chains.items rows.items made used versions ∥₁ },
}
