// The items of a group: its first, how many there are, and new ranks for them.
ghost use Rattle.std.specs.Prelude.{◌≡◌, ℕ, ◌<◌, ◌≤◌, true, length, if◌then◌else◌, Some, nat_lt};
ghost use Rattle.order.specs.Items.{member, Distinct};
ghost use Rattle.linked_lists.specs.Chain.{next_at, prev_at, walk};
ghost use Rattle.grouping.specs.Groups.{group_at, first_of, run_of, regrouped};

use crate::list::TwoLevelList;
use grouping::item::Seat;
use linked_lists::table::Table;

impl TwoLevelList {
    // The first of the items of the group of `a`.
    pub(crate) fn first_of(&self, a: u32) -> u32
        requires { a < self.now.table.count }
        ensures known { result < self.now.table.count }
        ensures first { result ≡ first_of (prev_at self.now.table.rows.items) (group_at self.now.table.rows.items) (group_at self.now.table.rows.items a) a }
    {
        let group = self.table.at(a).tag.group;
        self.table.back_while(a, |seat| seat.group == group)
    }

    // How many items of the group there are from `first` on, if these are not more than 32.
    pub(crate) fn size_of(&self, first: u32, group: u32) -> u32
        requires known { first < self.now.table.count }
        requires few { length (run_of (next_at self.now.table.rows.items) (group_at self.now.table.rows.items) group 33 (Some first)) ≤ 32 }
        ensures { result ≡ length (run_of (next_at self.now.table.rows.items) (group_at self.now.table.rows.items) group 33 (Some first)) }
    {
        self.table.run_while(first, |seat| seat.group == group)
    }
}

// The group of the item with that rank: the first 16 stay.
pub(crate) fn home_of(rank: u32, group: u32, fresh: u32) -> u32
    ensures { result ≡ (if nat_lt rank 16 then group else fresh) }
{
    if rank < 16 { group } else { fresh }
}

// Numbers `size` items from `first` on; those from 16 on go to the group `fresh`.
// A function over the table, not a method of the list: until the ranks are right, the groups do not hold the items.
// A loop is plainer than a call shared with the spreading of labels: that one is safe only at places below its count, which each closure's contract would have to say.
pub(crate) fn regroup(table: &mut Table<Seat>, first: u32, size: u32, fresh: u32)
    requires within { (x : ℕ) → member (walk (next_at table.old.rows.items) size (Some first)) x ≡ true → x < table.old.count }
    requires distinct { Distinct (walk (next_at table.old.rows.items) size (Some first)) }
    ensures rows { table.new.rows.items ≡ regrouped table.old.rows.items (walk (next_at table.old.rows.items) size (Some first)) 0 fresh }
    ensures count { table.new.count ≡ table.old.count }
    ensures limit { table.new.limit ≡ table.old.limit }
{
    let mut next = Some(first);
    for rank in 0..size {
        let Some(x) = next else {
            break;
        };
        let row = table.at(x);
        let group = home_of(rank, row.tag.group, fresh);
        table.retag(x, Seat { group, rank });
        next = row.next;
    }
}
