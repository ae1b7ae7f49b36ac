// A walk over the rows of a chain.
ghost use Rattle.chain_rows.specs.Chains.{Inside};

use chain_rows::row::{Chain, EntryRow};

// The rows that are left of a chain, all of them in the table.
#[derive(Drop)]
pub(crate) struct Walk<'a> {
    rows: &'a [EntryRow],
    rest: Chain,
    ghost inside: { ∥ Inside rows.now rest.head rest.len ∥₁ },
}

impl<'a> Walk<'a> {
    ghost use Rattle.chains.specs.Walks.{entries_left};
    ghost use Rattle.std.specs.Prelude.{◌≡◌};
    ghost use Rattle.chain_rows.specs.Chains.{chain};

    // A walk over the rows of a chain.
    pub(crate) fn new(rows: &'a [EntryRow], from: Chain) -> Walk<'a>
        requires { Inside rows.now from.head from.len }
        ensures { entries_left result ≡ chain rows.now from.head from.len }
    {
        Walk { rows, rest: from }
    }
}

impl<'a> Iterator for Walk<'a> {
    ghost use Rattle.chains.specs.Walks.{entries_left};
    ghost use Rattle.chain_rows.specs.Chains.{entry_of};
    ghost use Rattle.std.specs.Iterator.{YieldsFirstBy, item_count};

    type Item = EntryRow;

    ghost next_gives = { YieldsFirstBy entry_of entries_left };

    ghost remaining = { item_count entries_left };

    fn next(&mut self) -> Option<EntryRow> {
        let Chain { head, len } = self.rest;
        if len == 0 {
            return None;
        }
        let row = self.rows[head];
        self.rest = Chain {
            head: row.next,
            len: len - 1,
        };
        Some(row)
    }
}
