// The two-level list: a table of items that carry their seats, and the groups that they lie in.
ghost use Rattle.relabelled.specs.Meaning.{relabelled_items};
ghost use Rattle.grouping.specs.Groups.{Sound};

use grouping::item::Seat;
use linked_lists::table::Table;
use relabelled::list::RelabelledList;

#[derive(Drop)]
pub struct TwoLevelList {
    pub(crate) table: Table<Seat>,
    pub(crate) groups: RelabelledList,
    ghost sound: { ∥ Sound table.rows.items (relabelled_items groups) groups.table.limit table.count table.limit ∥₁ },
}
