// The calls of a relabelled list.
ghost use Rattle.std.specs.Prelude.{◌≡◌, [], ◌∷◌, Some, None, vec_len, MatchResult, OnErr, nat_lt};
ghost use Rattle.order.specs.Items.{after_answer, items_after};
ghost use Rattle.labels.specs.Labels.{fresh, entries_after, label_answer};
ghost use Rattle.linked_lists.specs.Decisions.{maker_refusal};
ghost use Rattle.relabelled.specs.Meaning.{relabelled_items, relabelled_entries};
ghost use Rattle.relabelled.specs.Held.{items_distinct, items_limit, items_numbered};

use crate::list::RelabelledList;
use labels::Labelled;
use linked_lists::refusing::check_table;
use linked_lists::row::Row;
use linked_lists::table::Table;
use order::VersionOrder;
use refusals::kinds::{MakerRefusal, OrderRefusal};

impl RelabelledList {
    // A list of item 0 alone, with label 0. A refusal hands the table back as it was.
    pub fn make(limit: u32, rows: Vec<Row<u32>>) -> Result<Self, (MakerRefusal, Vec<Row<u32>>)>
        ensures { MatchResult result (λ o. (maker_refusal limit (nat_lt (vec_len rows) limit) ≡ None) × (relabelled_items o ≡ 0 ∷ []) × (relabelled_entries o ≡ fresh) × (o.table.limit ≡ limit)) (λ e. (maker_refusal limit (nat_lt (vec_len rows) limit) ≡ Some e.0) × (e.1 ≡ rows)) }
    {
        match check_table(limit, rows.len()) {
            Ok(()) => Ok(RelabelledList {
                table: Table::fresh(limit, rows, 0),
            }),
            Err(refusal) => Err((refusal, rows)),
        }
    }

    // Puts a new item right behind a and answers its number, which is the count of items before the call.
    // The labels of all items afterwards are those of the rule: the order's own `after` has no word for them.
    pub fn after(&mut self, a: u32) -> Result<u32, OrderRefusal>
        ensures answer { result ≡ after_answer (relabelled_items self.old) self.old.table.limit a }
        ensures items { relabelled_items self.new ≡ items_after result (relabelled_items self.old) a }
        ensures labels { relabelled_entries self.new ≡ entries_after result (relabelled_entries self.old) a }
        ensures limit { self.new.table.limit ≡ self.old.table.limit }
        ensures refused { OnErr result (self.new ≡ self.old) }
    {
        self.table.check_after(a)?;
        Ok(self.place(a))
    }
}

impl VersionOrder for RelabelledList {
    ghost items = { λ o. relabelled_items o };

    ghost limit = { λ o. o.table.limit };

    ghost once = { λ o. items_distinct o };

    ghost within = { λ o. items_limit o };

    ghost numbered = { λ o a. items_numbered o a };

    fn count(&self) -> u32 {
        self.table.count()
    }

    fn before(&self, a: u32, b: u32) -> Result<bool, OrderRefusal> {
        Ok(self.table.row(a)?.tag < self.table.row(b)?.tag)
    }

    fn successor(&self, a: u32) -> Result<Option<u32>, OrderRefusal> {
        self.table.successor(a)
    }

    fn after(&mut self, a: u32) -> Result<u32, OrderRefusal> {
        RelabelledList::after(self, a)
    }
}

// The label of an item is its own.
impl Labelled for RelabelledList {
    ghost labels = { λ o a. label_answer (relabelled_entries o) a };

    fn label(&self, a: u32) -> Result<u32, OrderRefusal> {
        Ok(self.table.row(a)?.tag)
    }
}
