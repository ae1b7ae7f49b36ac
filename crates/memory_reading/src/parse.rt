// Reads a line of text: a word and decimal numbers, with single spaces between.
ghost use Rattle.std.specs.Prelude.{◌≡◌};
ghost use Rattle.text.specs.Parts.{words};
ghost use Rattle.memory_reading.specs.Words.{text_line};

use crate::read::begun;
use memory_lines::line::MemoryLine;
use text::split::Parts;

// The line that the text is; nothing where it is none. The orders' lines end in the same two lines: a function for both would take the reading
// as a closure, which would have to promise which words it leaves.
pub fn parse_line(line: &[u8]) -> Option<MemoryLine>
    ensures { result ≡ text_line (words line.now) }
{
    let mut words = Parts::words(line);
    let call = begun(&mut words)?;
    words.is_done().then_some(call)
}
