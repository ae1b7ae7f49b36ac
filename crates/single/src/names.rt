// The numbers of names in the table: functions over its rows, and no methods, since between `raise` and `lower` a node can have three
// names, which no memory has.
ghost use Rattle.std.specs.Prelude.{◌≡◌, ◌≤◌, true, length};
ghost use Rattle.single.specs.Rows.{below, names_at, raised, lowered, crowds};

use crate::node::Node;

// Whether the node `to` would get a third name, if a link or root that holds `old` held it.
pub(crate) fn crowded(rows: &[Node], old: Option<u32>, to: Option<u32>) -> bool
    requires { below (length rows.now) to ≡ true }
    ensures { result ≡ crowds rows.now old to }
{
    match to {
        Some(k) if to != old => rows[k as usize].names >= 2,
        _ => false,
    }
}

// One name more.
pub(crate) fn raise(rows: &mut [Node], to: Option<u32>)
    requires known { below (length rows.old) to ≡ true }
    requires few { names_at rows.old to ≤ 2 }
    ensures { rows.new ≡ raised rows.old to }
{
    if let Some(k) = to {
        rows[k as usize].names += 1;
    }
}

// One name less.
pub(crate) fn lower(rows: &mut [Node], to: Option<u32>)
    requires { below (length rows.old) to ≡ true }
    ensures { rows.new ≡ lowered rows.old to }
{
    if let Some(k) = to {
        rows[k as usize].names = rows[k as usize].names.saturating_sub(1);
    }
}
