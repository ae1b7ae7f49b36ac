// Runs a line over an order.
ghost use Rattle.std.specs.Prelude.{◌≡◌};
ghost use Rattle.order_lines.specs.Answers.{line_answer, items_by, Keeps};

use crate::line::{OrderAnswer, OrderLine};
use labels::Labelled;
use order::VersionOrder;
use refusals::kinds::OrderRefusal;

// Asks the order what the line asks. Only a line that gives a new item changes the order.
pub fn run_line<O: VersionOrder + Labelled>(
    order: &mut O,
    line: OrderLine,
) -> Result<OrderAnswer, OrderRefusal>
    ensures answer { result ≡ line_answer (O.items order.old) (O.limit order.old) (O.labels order.old) line }
    ensures items { O.items order.new ≡ items_by result line (O.items order.old) }
    ensures limit { O.limit order.new ≡ O.limit order.old }
    ensures same { Keeps result (order.new ≡ order.old) }
{
    Ok(match line {
        OrderLine::After(a) => OrderAnswer::NewItem(order.after(a)?),
        OrderLine::Before(a, b) => OrderAnswer::IsBefore(order.before(a, b)?),
        OrderLine::Successor(a) => OrderAnswer::Next(order.successor(a)?),
        OrderLine::Count => OrderAnswer::Total(order.count()),
        OrderLine::Label(a) => OrderAnswer::LabelIs(order.label(a)?),
    })
}
