// The table of copies: a row for each copy, and its entries in chains.
use chains::table::ChainTable;
use copy_rows::row::CopyRow;

pub mod ops;

// The root record, which is the copy 0, the rows of the other copies, the copy i at i - 1, and the chains of their entries; nodes is how
// many nodes were made. What the table keeps does not depend on the order. Copies name one another by number, in tables that are given at
// the making: no call allocates, and the bound on all copies together is promised. That the rows are placed is a premise and no invariant: one
// who makes a table from its fields need not show it.
pub struct CopyTable {
    pub root: CopyRow,
    pub copies: Vec<CopyRow>,
    pub chains: ChainTable,
    pub nodes: u32,
}
