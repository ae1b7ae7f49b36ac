// The relabelled list: a table of items that carry labels, which rise from the first to the last.
ghost use Rattle.linked_lists.specs.Chain.{Above, label_at, listed};

use linked_lists::table::Table;

#[derive(Drop)]
pub struct RelabelledList {
    pub(crate) table: Table<u32>,
    ghost rising: { ∥ Above (label_at table.rows.items) 0 (listed table.rows.items table.count) ∥₁ },
}
