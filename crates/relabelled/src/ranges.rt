// Finds the range of labels that can take one item more.
ghost use Rattle.std.specs.Prelude.{◌≡◌, ◌+◌, ◌^◌, ◌<◌, ◌≤◌};
ghost use Rattle.labels.specs.Labels.{count_in, next_label, width};
ghost use Rattle.labels.specs.Ranges.{first_from};
ghost use Rattle.linked_lists.specs.Chain.{label_at};
ghost use Rattle.linked_lists.specs.Ranges.{Around};
ghost use Rattle.relabelled.specs.Meaning.{relabelled_entries};

use crate::list::RelabelledList;
use labels::room;
use linked_lists::range::Range;

impl RelabelledList {
    // The first of the items whose label is at least `base`, `a` being one of them.
    fn first_from(&self, a: u32, base: u32) -> u32
        requires known { a < self.now.table.count }
        requires from { base ≤ label_at self.now.table.rows.items a }
        ensures first { result ≡ first_from base (relabelled_entries self.now) }
        ensures known { result < self.now.table.count }
        ensures from { base ≤ label_at self.now.table.rows.items result }
    {
        self.table.back_while(a, |label| label >= base)
    }

    // How many items the range has, `first` being its first item.
    fn count_in(&self, first: u32, base: u32, size: u32) -> u32
        requires known { first < self.now.table.count }
        requires from { base ≤ label_at self.now.table.rows.items first }
        requires starts { first ≡ first_from base (relabelled_entries self.now) }
        requires top { base + size ≤ 2 ^ 31 }
        ensures { result ≡ count_in base size (relabelled_entries self.now) }
    {
        let end = base + size;
        self.table.run_while(first, |label| label < end)
    }

    // The aligned range of 2^i labels around the label of `a`.
    fn range_at(&self, a: u32, i: u32) -> Range
        requires known { a < self.now.table.count }
        requires at { i < 32 }
        ensures { Around (relabelled_entries self.now) (label_at self.now.table.rows.items a) i result }
    {
        let label = self.table.at(a).tag;
        let size = 1u32 << i;
        let base = label / size * size;
        let first = self.first_from(a, base);
        let crowd = 1 + self.count_in(first, base, size);
        Range {
            base,
            size,
            first,
            crowd,
        }
    }

    // The smallest range around the label of `a` that has room for one item more.
    pub(crate) fn roomy(&self, a: u32) -> Range
        requires { a < self.now.table.count }
        ensures { Around (relabelled_entries self.now) (label_at self.now.table.rows.items a) (width (relabelled_entries self.now) (label_at self.now.table.rows.items a)) result }
    {
        for i in 0..31 {
            let range = self.range_at(a, i);
            if room(i) >= u64::from(range.crowd) {
                return range;
            }
        }
        self.range_at(a, 31)
    }

    // The label behind `a`, or 2^31 where `a` is the last.
    pub(crate) fn end_of(&self, a: u32) -> u32
        requires { a < self.now.table.count }
        ensures { result ≡ next_label (relabelled_entries self.now) a }
    {
        match self.table.at(a).next {
            Some(b) => self.table.at(b).tag,
            None => 0x8000_0000,
        }
    }
}
