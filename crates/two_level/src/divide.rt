// The group of a new item, and of those that leave a group of 32.
ghost use Rattle.std.specs.Prelude.{◌≡◌, if◌then◌else◌, Ok, nat_lt};
ghost use Rattle.order.specs.Items.{after_answer, items_after};
ghost use Rattle.labels.specs.Labels.{entries_after};
ghost use Rattle.relabelled.specs.Meaning.{relabelled_items, relabelled_entries};

use refusals::kinds::OrderRefusal;
use relabelled::list::RelabelledList;

// A new group right behind `group` where that has 32 items, else the group itself.
pub(crate) fn group_behind(
    groups: &mut RelabelledList,
    size: u32,
    group: u32,
) -> Result<u32, OrderRefusal>
    ensures answer { result ≡ (if nat_lt size 32 then Ok group else after_answer (relabelled_items groups.old) groups.old.table.limit group) }
    ensures items { relabelled_items groups.new ≡ (if nat_lt size 32 then relabelled_items groups.old else items_after result (relabelled_items groups.old) group) }
    ensures labels { relabelled_entries groups.new ≡ (if nat_lt size 32 then relabelled_entries groups.old else entries_after result (relabelled_entries groups.old) group) }
    ensures limit { groups.new.table.limit ≡ groups.old.table.limit }
{
    if size < 32 {
        return Ok(group);
    }
    RelabelledList::after(groups, group)
}
