// The one question that a table puts to a version order.
ghost use Rattle.std.specs.Prelude.{◌≡◌, ◌<◌, length, nat_lt};
ghost use Rattle.order.specs.Items.{position};

use order::VersionOrder;

// Whether a stands earlier than b; false where one of them is not known.
pub fn earlier<O: VersionOrder>(order: &O, a: u32, b: u32) -> bool
    ensures { a < length (O.items order.now) → b < length (O.items order.now) → result ≡ nat_lt (position (O.items order.now) a) (position (O.items order.now) b) }
{
    order.before(a, b).unwrap_or(false)
}
