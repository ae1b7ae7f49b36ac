// Walks over chains of entry rows that seek, put and rename entries, and that part a chain. They go by the numbers of rows and not by a
// Walk, since they answer with such a number or that of the row before, or write the rows. Nothing here asks the order to be right: a chain is
// in the table, its versions are known and its rows all different. Field and version change apart: an entry of both would be made at each call.
ghost use Rattle.std.specs.Prelude.{◌≡◌, ℕ, ◌+◌, ◌-◌, ◌<◌, ◌≤◌, true, false, length, slice_index_or};
ghost use Rattle.order.specs.Items.{position};
ghost use Rattle.fields.specs.Fields.{field_number, redirect};
ghost use Rattle.entries.specs.Entries.{mapped, put};
ghost use Rattle.chain_rows.specs.Chains.{Chained, Grows, Inside, Off, Shape, Within, blank, chain};
ghost use Rattle.chain_rows.specs.Skips.{Skipped};
ghost use Rattle.chain_rows.specs.Spots.{Found};

use crate::asking::earlier;
use chain_rows::row::{Chain, EntryRow, Gap};
use fields::kinds::{Field, Renaming, Value};
use order::VersionOrder;

// The row of the field's entry at the version v in a chain, or the gap where such an entry goes.
pub(crate) fn find<O: VersionOrder>(
    order: &O,
    rows: &[EntryRow],
    from: Chain,
    field: Field,
    v: u32,
) -> Result<usize, Gap>
    requires within { Within (length (O.items order.now)) rows.now from.head from.len }
    requires known { v < length (O.items order.now) }
    ensures { Found (position (O.items order.now)) (length (O.items order.now)) rows.now from.head from.len field v result }
{
    let mut prev = None;
    let mut next = from.head;
    for _step in 0..from.len {
        let row = rows[next];
        if earlier(order, v, row.version) {
            return Err(Gap { prev, next });
        }
        if row.version == v && row.field == field {
            return Ok(next);
        }
        prev = Some(next);
        next = row.next;
    }
    Err(Gap { prev, next })
}

// Puts an entry into a chain, in place of the one of its field and version or in a new row, the row used. Gives the chain as it is then.
// Where a row is needed and none is free, nothing is put.
pub(crate) fn put_entry<O: VersionOrder>(
    order: &O,
    rows: &mut [EntryRow],
    used: usize,
    from: Chain,
    field: Field,
    v: u32,
    value: Value,
) -> Chain
    requires chained { Chained (length (O.items order.now)) used rows.old from.head from.len }
    requires known { v < length (O.items order.now) }
    requires taken { used ≤ length rows.old }
    ensures puts { used + (length (put (position (O.items order.now)) (field_number field) v value (chain rows.old from.head from.len)) - from.len) ≤ length rows.old → chain rows.new result.head result.len ≡ put (position (O.items order.now)) (field_number field) v value (chain rows.old from.head from.len) }
    ensures fits { used + (result.len - from.len) ≤ length rows.old }
    ensures grows { Grows (length (O.items order.now)) used rows.old rows.new from result }
{
    match find(order, rows, from, field, v) {
        Ok(at) => {
            let next = rows[at].next;
            rows[at] = EntryRow {
                version: v,
                field,
                value,
                next,
            };
            from
        }
        Err(gap) => {
            if used >= rows.len() {
                return from;
            }
            rows[used] = EntryRow {
                version: v,
                field,
                value,
                next: gap.next,
            };
            let len = from.len + 1;
            match gap.prev {
                None => Chain { head: used, len },
                Some(prev) => {
                    rows[prev].next = used;
                    Chain {
                        head: from.head,
                        len,
                    }
                }
            }
        }
    }
}

// Lets the entries of a field from the version x on name one copy where they name another.
pub(crate) fn rename_entries<O: VersionOrder>(
    order: &O,
    rows: &mut [EntryRow],
    used: usize,
    from: Chain,
    field: Field,
    x: u32,
    names: Renaming,
)
    requires chained { Chained (length (O.items order.now)) used rows.old from.head from.len }
    requires known { x < length (O.items order.now) }
    requires taken { used ≤ length rows.old }
    ensures renames { chain rows.new from.head from.len ≡ mapped (position (O.items order.now)) (redirect names.old names.new) (field_number field) (position (O.items order.now) x) (chain rows.old from.head from.len) }
    ensures shape { Shape rows.old rows.new }
    ensures frame { (j : ℕ) → Off j rows.old from.head from.len → slice_index_or rows.new j blank ≡ slice_index_or rows.old j blank }
{
    let mut at = from.head;
    for _step in 0..from.len {
        let row = &mut rows[at];
        if row.field == field && !earlier(order, row.version, x) {
            row.value = row.value.redirected(names);
        }
        at = row.next;
    }
}

// What is left of a chain behind the leading rows whose versions pass the test.
pub(crate) fn skip_while<F: Fn(u32) -> bool>(rows: &[EntryRow], from: Chain, passes: F) -> Chain
    requires inside { Inside rows.now from.head from.len }
    requires callable { F.IsAlwaysCallable passes }
    ensures { Skipped (λ v. F.post passes v true) (λ v. F.post passes v false) rows.now from result }
{
    let mut rest = from;
    for _step in 0..from.len {
        let row = rows[rest.head];
        if !passes(row.version) {
            return rest;
        }
        rest = Chain {
            head: row.next,
            len: rest.len - 1,
        };
    }
    rest
}
