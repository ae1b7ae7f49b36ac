// One row of a doubly linked list that lies in a table: what its item carries, and the item's neighbours.
// The neighbours are numbers of rows, not boxes: the table is given at making, and no call takes memory.
#[derive(Clone, Copy, Drop)]
pub struct Row<T> {
    pub tag: T,
    pub next: Option<u32>,
    pub prev: Option<u32>,
}
