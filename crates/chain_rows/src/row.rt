// A row of the table of entries, a chain of rows, and a place between two rows of a chain. Rows are named by index: they lie in one table, which
// is given at the making, and no call allocates.
use fields::kinds::{Field, Value};

// One entry: its version, its field, its value, and the row behind it in its chain.
#[derive(Clone, Copy)]
pub struct EntryRow {
    pub version: u32,
    pub field: Field,
    pub value: Value,
    pub next: usize,
}

// A chain: its first row and how many rows it has.
#[derive(Clone, Copy)]
pub struct Chain {
    pub head: usize,
    pub len: usize,
}

impl Chain {
    // A chain without rows.
    pub const EMPTY: Chain = Chain { head: 0, len: 0 };
}

// Where a new row goes in a chain: behind the row prev, or first where there is none, and before the row next.
#[derive(Clone, Copy)]
pub struct Gap {
    pub prev: Option<usize>,
    pub next: usize,
}
