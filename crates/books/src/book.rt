// The book itself: a lent slice, of which the front is written.
ghost use Rattle.std.specs.Prelude.{◌≤◌, length};

// Keys in the caller's slice, in the order of their arrival. A place is never written twice.
// The memory is the caller's and has no heap behind it, so the number of written places stands beside the slice.
#[derive(Drop)]
pub struct Book<'a, K> {
    pub(crate) slots: &'a mut [K],
    pub(crate) len: usize,
    ghost within: { len ≤ length slots.now },
}
