// The calls of the table of chains. Each is safe for every order; its equation holds where the table answers the call. Where it does not, it
// changes nothing or gives a value without meaning, and no refusal: the memory above refuses before it calls, and a refusal here would be one
// more way out of each of its calls. The order comes with each call, as with the calls of a memory; chain, field and version change apart from
// one call to the next.
ghost use Rattle.std.specs.Prelude.{◌≡◌, ℕ, ◌<◌, true, false, length, vec_len, MatchResult};
ghost use Rattle.order.specs.Items.{position};
ghost use Rattle.fields.specs.Fields.{field_number, redirect};
ghost use Rattle.entries.specs.Counts.{version_at};
ghost use Rattle.entries.specs.Entries.{EachVersion, has, keep, mapped, put, read};
ghost use Rattle.chain_rows.specs.Sound.{tables_fit};
ghost use Rattle.chains.specs.Views.{Adds, Alters, Cuts, Made, Opens, asked, entries_of};
ghost use Rattle.chains.specs.Walks.{entries_left};

use crate::asking::earlier;
use crate::table::ChainTable;
use crate::walk::Walk;
use crate::walking::{put_entry, rename_entries, skip_while};
use chain_rows::row::{Chain, EntryRow};
use fields::kinds::{Field, Renaming, Value};
use order::VersionOrder;

// Whether a table can be made of so many chains and rows.
fn fit(chains: usize, rows: usize) -> bool
    ensures { result ≡ tables_fit chains rows }
{
    (1..=20481).contains(&chains) && rows <= 163840
}

impl ChainTable {
    // A table over the chains and rows given, which are handed back where they are too few or too many.
    pub fn new(
        mut chains: Vec<Chain>,
        rows: Vec<EntryRow>,
    ) -> Result<ChainTable, (Vec<Chain>, Vec<EntryRow>)>
        ensures { MatchResult result (λ t. Made (vec_len chains) (vec_len rows) t) (λ p. (tables_fit (vec_len chains) (vec_len rows) ≡ false) × (p.0 ≡ chains) × (p.1 ≡ rows)) }
    {
        if !fit(chains.len(), rows.len()) {
            return Err((chains, rows));
        }
        chains[0] = Chain::EMPTY;
        Ok(ChainTable {
            chains,
            rows,
            made: 1,
            used: 0,
            versions: 1,
        })
    }

    // Whether the chain i is in use, the version v known, and the order of as many versions as the table.
    fn answers<O: VersionOrder>(&self, order: &O, i: u32, v: u32) -> bool
        ensures { result ≡ asked self.now (length (O.items order.now)) i v }
    {
        i < self.made && v < self.versions && order.count() == self.versions
    }

    // A walk over the rows of the chain i.
    fn walk(&self, i: u32) -> Walk<'_>
        requires { i < self.now.made }
        ensures entries { entries_left result ≡ entries_of self.now i }
        ensures known { EachVersion (λ v. v < self.now.versions) (entries_of self.now i) }
    {
        Walk::new(&self.rows, self.chains[i as usize])
    }

    // The value of a field of the chain i at the version v; first where no entry tells it.
    pub fn read<O: VersionOrder>(
        &self,
        order: &O,
        i: u32,
        first: Value,
        field: Field,
        v: u32,
    ) -> Value
        ensures { asked self.now (length (O.items order.now)) i v ≡ true → result ≡ read (position (O.items order.now)) (field_number field) (position (O.items order.now) v) first (entries_of self.now i) }
    {
        if !self.answers(order, i, v) {
            return first;
        }
        let mut value = first;
        for row in self.walk(i) {
            if row.field == field && !earlier(order, v, row.version) {
                value = row.value;
            }
        }
        value
    }

    // Whether the chain i has an entry of the field at the version v.
    pub fn has<O: VersionOrder>(&self, order: &O, i: u32, field: Field, v: u32) -> bool
        ensures { asked self.now (length (O.items order.now)) i v ≡ true → result ≡ has (position (O.items order.now)) (field_number field) (position (O.items order.now) v) (entries_of self.now i) }
    {
        self.answers(order, i, v)
            && self
                .walk(i)
                .any(|row| row.version == v && row.field == field)
    }

    // Puts an entry into the chain i: in place of the one of its field and version, or in a new row.
    pub fn put<O: VersionOrder>(&mut self, order: &O, i: u32, field: Field, v: u32, value: Value)
        ensures { Alters (asked self.old (length (O.items order.now)) i v) self.old self.new i (put (position (O.items order.now)) (field_number field) v value (entries_of self.old i)) }
    {
        if !self.answers(order, i, v) {
            return;
        }
        let chain = self.chains[i as usize];
        let longer = put_entry(order, &mut self.rows, self.used, chain, field, v, value);
        self.used += longer.len - chain.len;
        self.chains[i as usize] = longer;
    }

    // Lets the entries of a field of the chain i, from the version x on, name one copy where they name another.
    pub fn rename<O: VersionOrder>(
        &mut self,
        order: &O,
        i: u32,
        field: Field,
        x: u32,
        names: Renaming,
    )
        ensures { Alters (asked self.old (length (O.items order.now)) i x) self.old self.new i (mapped (position (O.items order.now)) (redirect names.old names.new) (field_number field) (position (O.items order.now) x) (entries_of self.old i)) }
    {
        if !self.answers(order, i, x) {
            return;
        }
        let chain = self.chains[i as usize];
        rename_entries(order, &mut self.rows, self.used, chain, field, x, names);
    }

    // How many entries the chain i has.
    pub fn length(&self, i: u32) -> usize
        ensures { i < self.now.made → result ≡ length (entries_of self.now i) }
    {
        if i >= self.made {
            return 0;
        }
        self.chains[i as usize].len
    }

    // The version of the entry number k, counted from 0, of the chain i.
    pub fn version_of(&self, i: u32, k: usize) -> u32
        ensures { i < self.now.made → k < length (entries_of self.now i) → result ≡ version_at (entries_of self.now i) k }
    {
        // a walk to a place behind the last entry would pass all of them
        if i >= self.made || k >= self.length(i) {
            return 0;
        }
        self.walk(i).nth(k).map_or(0, |row| row.version)
    }

    // Parts the chain c at the version x: the entries before x stay, and those behind x go to a new chain.
    pub fn cut<O: VersionOrder>(&mut self, order: &O, c: u32, x: u32)
        ensures { Cuts (asked self.old (length (O.items order.now)) c x) (position (O.items order.now)) c x self.old self.new }
    {
        if !self.answers(order, c, x) {
            return;
        }
        let made = self.made;
        if made as usize >= self.chains.len() {
            return;
        }
        let chain = self.chains[c as usize];
        let rest = skip_while(&self.rows, chain, |v| earlier(order, v, x));
        let tail = skip_while(&self.rows, rest, |v| !earlier(order, x, v));
        self.chains[made as usize] = tail;
        self.chains[c as usize] = Chain {
            head: chain.head,
            len: chain.len - rest.len,
        };
        self.made = made + 1;
    }

    // Adds an entry to the chain i, unless its field has one at the version v.
    pub fn keep<O: VersionOrder>(&mut self, order: &O, i: u32, field: Field, v: u32, old: Value)
        ensures { Alters (asked self.old (length (O.items order.now)) i v) self.old self.new i (keep (position (O.items order.now)) (field_number field) v old (entries_of self.old i)) }
    {
        if !self.has(order, i, field, v) {
            self.put(order, i, field, v, old);
        }
    }

    // A new chain without entries, if one is free.
    pub fn add(&mut self)
        ensures { Adds self.old self.new }
    {
        let made = self.made;
        if made as usize >= self.chains.len() {
            return;
        }
        self.chains[made as usize] = Chain::EMPTY;
        self.made = made + 1;
    }

    // One version more.
    pub fn open(&mut self)
        ensures { Opens self.old self.new }
    {
        if self.versions < 4096 {
            self.versions += 1;
        }
    }
}
