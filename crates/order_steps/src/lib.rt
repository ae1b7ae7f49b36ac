// Rows of calls over any version order, shown from the interface alone.
#![tactic(auto)]

ghost use Rattle.std.specs.Prelude.{◌≡◌, MatchResult};
ghost use Rattle.order_steps.specs.Steps.{Between};

use order::VersionOrder;
use refusals::kinds::OrderRefusal;

// Puts a new item right behind a, and answers it together with the item that stood behind a: the new one stands between the two.
pub fn insert_between<O: VersionOrder>(
    order: &mut O,
    a: u32,
) -> Result<(u32, Option<u32>), OrderRefusal>
    ensures { MatchResult result (λ p. Between (O.items order.old) (O.items order.new) a p.0 p.1) (λ _. order.new ≡ order.old) }
{
    let next = order.successor(a)?;
    let n = order.after(a)?;
    Ok((n, next))
}
