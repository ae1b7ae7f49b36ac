// The calls of the table of copies. Each is safe for every order; its equation holds where the rows are placed and the chains answer.
ghost use Rattle.std.specs.Prelude.{◌≡◌, ℕ, ◌≤◌, true, length, vec_len};
ghost use Rattle.order.specs.Items.{position};
ghost use Rattle.fields.specs.Fields.{field_number};
ghost use Rattle.fields.specs.declared.kinds.Value.TheVariants.{To};
ghost use Rattle.slices.specs.Copies.{value_at};
ghost use Rattle.slices.specs.Splits.{naming};
ghost use Rattle.slices.specs.Threads.{owns};
ghost use Rattle.states.specs.Relinks.{crowded, slice, taken};
ghost use Rattle.chains.specs.Views.{asked};
ghost use Rattle.copies.specs.Views.{Changes, Holds, Placed, Redirects, RedirectsAll, RowSet, copies_of, copy_of, next_of, row_at};

use crate::table::CopyTable;
use chains::asking::earlier;
use copy_rows::row::CopyRow;
use fields::kinds::{Field, Renaming, Value};
use order::VersionOrder;

// Whether a back link is taken by another link than l of the copy i. It is no method of Value, whose crate lies below the theory of links
// that says what taken means.
pub fn taken(i: u32, l: u32, back: Value) -> bool
    ensures { result ≡ taken i l back }
{
    back != Value::Nil && back != Value::From(i, l)
}

impl CopyTable {
    // The row of the copy i.
    pub fn row(&self, i: u32) -> CopyRow
        ensures { i ≤ vec_len self.now.copies → result ≡ row_at self.now i }
    {
        match i.checked_sub(1) {
            None => self.root,
            Some(k) => self.copies.get(k as usize).copied().unwrap_or(self.root),
        }
    }

    // What a field of the copy i holds at the version v.
    pub fn value_at<O: VersionOrder>(&self, order: &O, i: u32, field: Field, v: u32) -> Value
        ensures { Placed self.now → asked self.now.chains (length (O.items order.now)) i v ≡ true → result ≡ value_at (position (O.items order.now)) (position (O.items order.now) v) (copy_of self.now i) (field_number field) }
    {
        let row = self.row(i);
        self.chains.read(order, i, row.first(field), field, v)
    }

    // Whether the version v stands before the first version of the next copy of the node of the copy i.
    pub fn owns<O: VersionOrder>(&self, order: &O, i: u32, v: u32) -> bool
        ensures { Placed self.now → asked self.now.chains (length (O.items order.now)) i v ≡ true → result ≡ owns (position (O.items order.now)) (copies_of self.now) (position (O.items order.now) v) (next_of self.now i) }
    {
        self.row(i)
            .next
            .is_none_or(|n| earlier(order, v, self.row(n).lo))
    }

    // Gives the copy i another row.
    pub fn set_row(&mut self, i: u32, row: CopyRow)
        ensures { RowSet i row self.old self.new }
    {
        match i.checked_sub(1) {
            None => self.root = row,
            Some(k) => {
                if let Some(place) = self.copies.get_mut(k as usize) {
                    *place = row;
                }
            }
        }
    }

    // Before a change of a field of the copy i at the version u: the version behind u, if the copy serves it too, keeps the value.
    fn hold<O: VersionOrder>(
        &mut self,
        order: &O,
        i: u32,
        field: Field,
        u: u32,
        behind: Option<u32>,
    )
        ensures { Holds (position (O.items order.now)) (length (O.items order.now)) u behind i (field_number field) self.old self.new }
    {
        if let Some(s) = behind {
            let old = self.value_at(order, i, field, u);
            self.chains.keep(order, i, field, s, old);
        }
    }

    // Changes a field of the copy i at the version u: an entry there, or the first value where the copy begins at u. The version behind u,
    // given where the copy serves it too, keeps the value.
    pub fn set_field<O: VersionOrder>(
        &mut self,
        order: &O,
        i: u32,
        field: Field,
        u: u32,
        behind: Option<u32>,
        w: Value,
    )
        ensures { Changes (position (O.items order.now)) (length (O.items order.now)) u behind i (field_number field) w self.old self.new }
    {
        self.hold(order, i, field, u, behind);
        let row = self.row(i);
        if row.lo == u {
            self.set_row(i, row.with_first(field, w));
            return;
        }
        self.chains.put(order, i, field, u, w);
    }

    // Whether the link l of the copy i, set to v at the version u, would be a third one to its target.
    pub fn crowded<O: VersionOrder>(&self, order: &O, i: u32, l: u32, u: u32, v: Value) -> bool
        ensures { Placed self.now → ((k : ℕ) → v ≡ To k → asked self.now.chains (length (O.items order.now)) k u ≡ true) → result ≡ crowded (slice (position (O.items order.now)) u (copies_of self.now)) i l v }
    {
        match v {
            Value::To(k) => {
                taken(i, l, self.value_at(order, k, Field::FirstBack, u))
                    && taken(i, l, self.value_at(order, k, Field::SecondBack, u))
            }
            _ => false,
        }
    }

    // Lets a field of the copy i name one copy where it names another, from the version x on.
    fn redirect_field<O: VersionOrder>(
        &mut self,
        order: &O,
        i: u32,
        field: Field,
        x: u32,
        names: Renaming,
    )
        ensures { Redirects (position (O.items order.now)) (length (O.items order.now)) names.old names.new x i (field_number field) self.old self.new }
    {
        let value = self.value_at(order, i, field, x);
        self.chains.rename(order, i, field, x, names);
        if value.names(names.old) {
            self.chains.put(order, i, field, x, value.redirected(names));
        }
    }

    // Lets the copy i, which began before the version x, name one copy where it names another, from x on.
    pub fn redirect_from<O: VersionOrder>(&mut self, order: &O, i: u32, x: u32, names: Renaming)
        ensures { RedirectsAll (position (O.items order.now)) (length (O.items order.now)) names.old names.new x i naming self.old self.new }
    {
        for field in [
            Field::SecondBack,
            Field::FirstBack,
            Field::Third,
            Field::Right,
            Field::Left,
        ] {
            self.redirect_field(order, i, field, x, names);
        }
    }
}
