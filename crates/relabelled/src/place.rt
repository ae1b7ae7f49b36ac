// Puts a new item right behind another, with the labels that the rules give.
ghost use Rattle.std.specs.Prelude.{◌≡◌, ◌<◌};
ghost use Rattle.labels.specs.Labels.{inserted, relabelled, width};
ghost use Rattle.linked_lists.specs.Chain.{label_at};
ghost use Rattle.order.specs.Items.{behind};
ghost use Rattle.relabelled.specs.Meaning.{relabelled_items, relabelled_entries};

use crate::list::RelabelledList;
use crate::spreading::spread;

impl RelabelledList {
    // Puts a new item right behind `a`, halfway to the label behind it, or with new labels where these lie too close, and answers its number.
    pub(crate) fn place(&mut self, a: u32) -> u32
        requires known { a < self.old.table.count }
        requires room { self.old.table.count < self.old.table.limit }
        ensures number { result ≡ self.old.table.count }
        ensures items { relabelled_items self.new ≡ behind (relabelled_items self.old) a self.old.table.count }
        ensures labels { relabelled_entries self.new ≡ inserted (relabelled_entries self.old) a self.old.table.count }
        ensures limit { self.new.table.limit ≡ self.old.table.limit }
    {
        let label = self.table.at(a).tag;
        let gap = self.end_of(a) - label;
        if gap >= 2 {
            self.table.link(a, label + gap / 2)
        } else {
            self.relabel(a)
        }
    }

    // Puts a new item right behind `a` and gives the items around `a` new labels.
    fn relabel(&mut self, a: u32) -> u32
        requires known { a < self.old.table.count }
        requires room { self.old.table.count < self.old.table.limit }
        ensures number { result ≡ self.old.table.count }
        ensures items { relabelled_items self.new ≡ behind (relabelled_items self.old) a self.old.table.count }
        ensures labels { relabelled_entries self.new ≡ relabelled (relabelled_entries self.old) a self.old.table.count (label_at self.old.table.rows.items a) (width (relabelled_entries self.old) (label_at self.old.table.rows.items a)) }
        ensures limit { self.new.table.limit ≡ self.old.table.limit }
    {
        let range = self.roomy(a);
        let label = self.table.at(a).tag;
        let n = self.table.link(a, label);
        spread(&mut self.table, range);
        n
    }
}
