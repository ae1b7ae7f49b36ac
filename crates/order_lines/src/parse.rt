// Reads a line of text.
ghost use Rattle.std.specs.Prelude.{◌≡◌, IfSome};
ghost use Rattle.text.specs.Parts.{words};
ghost use Rattle.text.specs.Left.{left};
ghost use Rattle.order_lines.specs.Texts.{begun, behind_line, line_of};

use crate::line::OrderLine;
use text::split::Parts;

// The line that the next words begin with.
fn begun(words: &mut Parts) -> Option<OrderLine>
    ensures line { result ≡ begun (left words.old) }
    ensures rest { IfSome result (λ l. left words.new ≡ behind_line l (left words.old)) }
{
    Some(match words.next()? {
        b"after" => OrderLine::After(words.number()?),
        b"before" => OrderLine::Before(words.number()?, words.number()?),
        b"successor" => OrderLine::Successor(words.number()?),
        b"count" => OrderLine::Count,
        b"label" => OrderLine::Label(words.number()?),
        _ => return None,
    })
}

// The line that a text is; nothing where it is none.
pub fn parse_line(line: &[u8]) -> Option<OrderLine>
    ensures { result ≡ line_of (words line.now) }
{
    let mut words = Parts::words(line);
    let line = begun(&mut words)?;
    words.is_done().then_some(line)
}
