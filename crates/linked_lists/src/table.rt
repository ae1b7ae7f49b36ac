// A doubly linked list that lies in a table. Its items are numbered as they are made; item 0 always stands first.
ghost use Rattle.std.specs.Prelude.{◌≡◌, ℕ, ◌+◌, ◌<◌, ◌≤◌, true, false, Some, None, IfSome, MatchResult, length, set, vec_len};
ghost use Rattle.order.specs.Items.{known, successor_answer};
ghost use Rattle.linked_lists.specs.Chain.{Sound, RowOf, blank, listed, next_at, prev_at, linked_rows, retagged};
ghost use Rattle.linked_lists.specs.Decisions.{after_refusal};
ghost use Rattle.linked_lists.specs.Passing.{Run, Back};

use crate::links::link;
use crate::refusing::check_new;
use crate::row::Row;
use refusals::kinds::OrderRefusal;

// The rows, how many items they hold, and how many they may hold.
// The rows are given whole at making, and no call takes memory, so the number in use stands beside them.
// A number that is an item's would have to name its table, which changes with each new item: the calls ask that it is below the count.
#[derive(Drop)]
pub struct Table<T> {
    pub(crate) rows: Vec<Row<T>>,
    pub(crate) count: u32,
    pub(crate) limit: u32,
    ghost sound: { ∥ Sound rows.items count limit ∥₁ },
}

impl<T: Copy> Table<T> {
    // A list of item 0 alone, which carries the tag.
    pub fn fresh(limit: u32, mut rows: Vec<Row<T>>, tag: T) -> Self
        requires some { 0 < limit }
        requires small { limit ≤ 4096 }
        requires room { limit ≤ vec_len rows }
        ensures rows { result.rows.items ≡ set rows.items 0 (blank tag) }
        ensures count { result.count ≡ 1 }
        ensures limit { result.limit ≡ limit }
    {
        rows[0] = Row {
            tag,
            next: None,
            prev: None,
        };
        Table {
            rows,
            count: 1,
            limit,
        }
    }

    // How many items there are.
    pub fn count(&self) -> u32
        ensures { result ≡ length (listed self.now.rows.items self.now.count) }
    {
        self.count
    }

    // The row of an item.
    pub fn at(&self, a: u32) -> Row<T>
        requires { a < self.now.count }
        ensures row { RowOf self.now.rows.items a result }
        ensures next { IfSome (next_at self.now.rows.items a) (λ b. b < self.now.count) }
        ensures prev { IfSome (prev_at self.now.rows.items a) (λ b. b < self.now.count) }
    {
        self.rows[a as usize]
    }

    // The row of a; refused where there is no such item.
    pub fn row(&self, a: u32) -> Result<Row<T>, OrderRefusal>
        ensures { MatchResult result (λ r. (a < self.now.count) × RowOf self.now.rows.items a r) (λ e. (self.now.count ≤ a) × (e ≡ OrderRefusal.UnknownItem)) }
    {
        if a < self.count {
            Ok(self.at(a))
        } else {
            Err(OrderRefusal::UnknownItem)
        }
    }

    // The item right behind a, or nothing where a is the last.
    pub fn successor(&self, a: u32) -> Result<Option<u32>, OrderRefusal>
        ensures { result ≡ successor_answer (listed self.now.rows.items self.now.count) a }
    {
        Ok(self.row(a)?.next)
    }

    // How many items from `first` on, one after another, carry what passes the test.
    pub fn run_while<F: Fn(T) -> bool>(&self, first: u32, passes: F) -> u32
        requires known { first < self.now.count }
        requires callable { F.IsAlwaysCallable passes }
        ensures { Run (λ t. F.post passes t true) (λ t. F.post passes t false) self.now.rows.items (Some first) result }
    {
        let mut size = 0;
        let mut next = Some(first);
        while let Some(x) = next {
            let row = self.at(x);
            if !passes(row.tag) {
                break;
            }
            size += 1;
            next = row.next;
        }
        size
    }

    // The first of the items to which links lead back from `a` as long as these carry what passes the test.
    pub fn back_while<F: Fn(T) -> bool>(&self, a: u32, passes: F) -> u32
        requires known { a < self.now.count }
        requires callable { F.IsAlwaysCallable passes }
        ensures known { result < self.now.count }
        ensures back { Back (λ t. F.post passes t true) (λ t. F.post passes t false) self.now.rows.items a result }
    {
        let mut x = a;
        while let Some(y) = self.at(x).prev {
            if !passes(self.at(y).tag) {
                break;
            }
            x = y;
        }
        x
    }

    // Refuses a new item behind a where a is unknown, and then where there are as many items as there may be.
    pub fn check_after(&self, a: u32) -> Result<(), OrderRefusal>
        ensures { MatchResult result (λ _. after_refusal self.now.count self.now.limit a ≡ None) (λ e. after_refusal self.now.count self.now.limit a ≡ Some e) }
    {
        check_new(self.count, self.limit, a)
    }

    // Puts a new item, which carries the tag, right behind a, and answers its number.
    pub fn link(&mut self, a: u32, tag: T) -> u32
        requires known { a < self.old.count }
        requires room { self.old.count < self.old.limit }
        ensures number { result ≡ self.old.count }
        ensures rows { self.new.rows.items ≡ linked_rows self.old.rows.items a self.old.count tag }
        ensures count { self.new.count ≡ self.old.count + 1 }
        ensures limit { self.new.limit ≡ self.old.limit }
    {
        let n = self.count;
        link(&mut self.rows, a, n, tag);
        self.count = n + 1;
        n
    }

    // Lets an item carry the tag in place of what it carried.
    // That the count and the limit stay is said in place, here and above: a name for two short clauses would be no shorter where it is cited.
    pub fn retag(&mut self, x: u32, tag: T)
        requires { x < self.old.count }
        ensures rows { self.new.rows.items ≡ retagged self.old.rows.items x tag }
        ensures count { self.new.count ≡ self.old.count }
        ensures limit { self.new.limit ≡ self.old.limit }
    {
        self.rows[x as usize].tag = tag;
    }
}
