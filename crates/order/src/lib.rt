// The interface of version orders: a limit, and a list of items without repeats. Every memory asks such an order which of two
// versions stands earlier; nothing above this crate knows how an order keeps its items.
#![tactic(auto)]

ghost use Rattle.std.specs.Prelude.{◌≡◌, ℕ, ◌≤◌, List, length, OnErr};
ghost use Rattle.order.specs.Items.{member, Distinct, known, after_answer, items_after, before_answer, successor_answer};
ghost use Rattle.order.specs.Laws.{BeforeIsAnOrder, NewItemPartsNothing};

use refusals::kinds::OrderRefusal;

// A version order. Its items are numbered from 0 in the order of their making, which is not the order in which they stand.
pub trait VersionOrder {
    // the items, first to last
    ghost items: { Self → List ℕ };

    // how many items there may be
    ghost limit: { Self → ℕ };

    // How many items there are.
    fn count(&self) -> u32
        ensures { result ≡ length (items self.now) };

    // Whether a stands earlier than b.
    fn before(&self, a: u32, b: u32) -> Result<bool, OrderRefusal>
        ensures { result ≡ before_answer (items self.now) a b };

    // The item right behind a, or nothing where a is the last.
    fn successor(&self, a: u32) -> Result<Option<u32>, OrderRefusal>
        ensures { result ≡ successor_answer (items self.now) a };

    // Puts a new item right behind a and answers its number, which is the count of items before the call.
    fn after(&mut self, a: u32) -> Result<u32, OrderRefusal>
        ensures answer { result ≡ after_answer (items self.old) (limit self.old) a }
        ensures items { items self.new ≡ items_after result (items self.old) a }
        ensures limit { limit self.new ≡ limit self.old }
        ensures refused { OnErr result (self.new ≡ self.old) };

    // no item stands twice
    ghost once: { (o : Self) → Distinct (items o) };

    // there are at most as many items as the limit says
    ghost within: { (o : Self) → length (items o) ≤ limit o };

    // an item is known exactly when it is below the count
    ghost numbered: { (o : Self) (a : ℕ) → member (items o) a ≡ known (items o) a };
}

// The laws of the list that an order means hold: standing earlier is a strict total order, and a new item parts no others.
pub fn order_laws_hold() -> u8
    ensures before { BeforeIsAnOrder }
    ensures others { NewItemPartsNothing }
{
    0
}
