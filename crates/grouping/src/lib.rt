// Items in groups of at most 32: what rows of such items mean, what each write to them leaves, and the laws of groups.
#![tactic(auto)]

ghost use Rattle.grouping.specs.Laws.{GroupsHoldTheList, GroupsStaySmall};

pub mod item;

// The laws of groups hold: a new item stands right behind the other in the list that the groups hold, and groups stay small.
pub fn grouping_laws_hold() -> u8
    ensures list { GroupsHoldTheList }
    ensures small { GroupsStaySmall }
{
    0
}
