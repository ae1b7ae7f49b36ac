// A row of the table: a node, and how many links and roots name it.
ghost use Rattle.std.specs.Prelude.{◌≡◌};
ghost use Rattle.single.specs.Rows.{new_row};

// A link is the number of a row, and no box: the rows are given at making, and no call takes memory.
#[derive(Clone, Copy)]
pub struct Node {
    pub(crate) key: u32,
    pub(crate) value: u64,
    pub(crate) mark: u32,
    pub(crate) links: [Option<u32>; 2],
    pub(crate) names: u32,
}

impl Node {
    // A node at its birth; any such row serves to make a table of.
    pub fn new(key: u32, value: u64, mark: u32) -> Self
        ensures { result ≡ new_row key value mark }
    {
        Node {
            key,
            value,
            mark,
            links: [None; 2],
            names: 0,
        }
    }
}
