// What an item of a two-level list carries: its group, and its rank among the group's items.
use linked_lists::row::Row;

#[derive(Clone, Copy, Drop)]
pub struct Seat {
    pub group: u32,
    pub rank: u32,
}

// One row of a two-level list's table.
pub type Item = Row<Seat>;
