// Gives the items of a range new labels.
ghost use Rattle.std.specs.Prelude.{◌≡◌};
ghost use Rattle.labels.specs.Labels.{spread};
ghost use Rattle.linked_lists.specs.Chain.{listed, labelled};
ghost use Rattle.linked_lists.specs.Ranges.{Spreadable};

use linked_lists::range::Range;
use linked_lists::table::Table;

// Spreads the labels of the items of the range evenly over it.
// A function over the table, not a method of the list: until the labels are spread, two of them may be the same.
// A loop, not a call that takes a closure of place and old tag, is plainer: the closure's sums are safe only at places below `crowd`, which would be one clause more.
pub(crate) fn spread(table: &mut Table<u32>, range: Range)
    requires { Spreadable table.old.rows.items table.old.count range }
    ensures items { listed table.new.rows.items table.new.count ≡ listed table.old.rows.items table.old.count }
    ensures labels { labelled table.new.rows.items table.new.count ≡ spread range.base range.size range.crowd 0 (labelled table.old.rows.items table.old.count) }
    ensures count { table.new.count ≡ table.old.count }
    ensures limit { table.new.limit ≡ table.old.limit }
{
    let mut next = Some(range.first);
    for j in 0..range.crowd {
        let Some(x) = next else {
            break;
        };
        let step = (u64::from(j) * u64::from(range.size)) / u64::from(range.crowd);
        // the step is below the size, so nothing is lost
        table.retag(x, range.base + step as u32);
        next = table.at(x).next;
    }
}
