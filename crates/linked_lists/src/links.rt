// The one write that changes the links of a table, by what it leaves of the rows.
ghost use Rattle.std.specs.Prelude.{◌≡◌, ℕ, ◌<◌, IfSome, length};
ghost use Rattle.linked_lists.specs.Chain.{next_at, linked_rows};

use crate::row::Row;

// Puts item `n`, with the tag, right behind `a`.
// A function over the rows, since between its writes the links are those of no list.
pub(crate) fn link<T: Copy>(rows: &mut [Row<T>], a: u32, n: u32, tag: T)
    requires here { a < length rows.old }
    requires room { n < length rows.old }
    requires apart { a < n }
    requires there { IfSome (next_at rows.old a) (λ b. b < n) }
    ensures { rows.new ≡ linked_rows rows.old a n tag }
{
    let here = rows[a as usize];
    rows[n as usize] = Row {
        tag,
        next: here.next,
        prev: Some(a),
    };
    rows[a as usize].next = Some(n);
    if let Some(b) = here.next {
        rows[b as usize].prev = Some(n);
    }
}
