// The calls of a two-level list.
ghost use Rattle.std.specs.Prelude.{◌≡◌, ◌||◌, Some, None, vec_len, MatchResult, OnErr, nat_lt};
ghost use Rattle.order.specs.Items.{after_answer, items_after};
ghost use Rattle.linked_lists.specs.Decisions.{maker_refusal};
ghost use Rattle.grouping.specs.Blocks.{blocks_after, group_entries_after};
ghost use Rattle.two_level.specs.Meaning.{two_level_items, two_level_blocks, group_entries, group_of, Kept, Started, group_label_answer};
ghost use Rattle.two_level.specs.Held.{order_distinct, order_limit, order_numbered};

use crate::divide::group_behind;
use crate::list::TwoLevelList;
use crate::runs::regroup;
use grouping::item::{Item, Seat};
use labels::Labelled;
use linked_lists::refusing::check_table;
use linked_lists::row::Row;
use linked_lists::table::Table;
use order::VersionOrder;
use refusals::kinds::{MakerRefusal, OrderRefusal};
use relabelled::list::RelabelledList;

impl TwoLevelList {
    // A list of item 0 alone, in group 0, whose label is 0. A refusal hands both tables back as they were.
    pub fn make(
        limit: u32,
        rows: Vec<Item>,
        groups: Vec<Row<u32>>,
    ) -> Result<Self, (MakerRefusal, Vec<Item>, Vec<Row<u32>>)>
        ensures { MatchResult result (λ o. (maker_refusal limit (nat_lt (vec_len rows) limit || nat_lt (vec_len groups) limit) ≡ None) × Started o limit) (λ e. (maker_refusal limit (nat_lt (vec_len rows) limit || nat_lt (vec_len groups) limit) ≡ Some e.0) × (e.1 ≡ rows) × (e.2 ≡ groups)) }
    {
        if let Err(refusal) = check_table(limit, rows.len()) {
            return Err((refusal, rows, groups));
        }
        match RelabelledList::make(limit, groups) {
            Ok(groups) => Ok(TwoLevelList {
                table: Table::fresh(limit, rows, Seat { group: 0, rank: 0 }),
                groups,
            }),
            Err((refusal, groups)) => Err((refusal, rows, groups)),
        }
    }

    // Puts a new item right behind a, in its group, and answers its number, which is the count of items before the call.
    // A group that would reach 33 keeps its first 16; the other 17 go to a new group right behind: the order's own `after` has no word for groups.
    pub fn after(&mut self, a: u32) -> Result<u32, OrderRefusal>
        ensures answer { result ≡ after_answer (two_level_items self.old) self.old.table.limit a }
        ensures items { two_level_items self.new ≡ items_after result (two_level_items self.old) a }
        ensures blocks { two_level_blocks self.new ≡ blocks_after result (two_level_blocks self.old) a }
        ensures labels { group_entries self.new ≡ group_entries_after result (group_entries self.old) (two_level_blocks self.old) a (group_of self.old a) }
        ensures kept { Kept self.new }
        ensures limit { self.new.table.limit ≡ self.old.table.limit }
        ensures refused { OnErr result (self.new ≡ self.old) }
    {
        self.table.check_after(a)?;
        let seat = self.table.at(a).tag;
        let first = self.first_of(a);
        let size = self.size_of(first, seat.group);
        let fresh = group_behind(&mut self.groups, size, seat.group)?;
        let n = self.table.link(a, seat);
        regroup(&mut self.table, first, size + 1, fresh);
        Ok(n)
    }
}

impl VersionOrder for TwoLevelList {
    ghost items = { λ o. two_level_items o };

    ghost limit = { λ o. o.table.limit };

    ghost once = { λ o. order_distinct o };

    ghost within = { λ o. order_limit o };

    ghost numbered = { λ o a. order_numbered o a };

    fn count(&self) -> u32 {
        self.table.count()
    }

    fn before(&self, a: u32, b: u32) -> Result<bool, OrderRefusal> {
        let x = self.table.row(a)?.tag;
        let y = self.table.row(b)?.tag;
        if x.group == y.group {
            return Ok(x.rank < y.rank);
        }
        self.groups.before(x.group, y.group)
    }

    fn successor(&self, a: u32) -> Result<Option<u32>, OrderRefusal> {
        self.table.successor(a)
    }

    fn after(&mut self, a: u32) -> Result<u32, OrderRefusal> {
        TwoLevelList::after(self, a)
    }
}

// The label of an item is that of its group.
impl Labelled for TwoLevelList {
    ghost labels = { λ o a. group_label_answer o a };

    fn label(&self, a: u32) -> Result<u32, OrderRefusal> {
        self.groups.label(self.table.row(a)?.tag.group)
    }
}
