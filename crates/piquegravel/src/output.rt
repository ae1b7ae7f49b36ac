// What the program writes: each line as it came, an arrow, and the answer.
ghost use Rattle.std.specs.Prelude.{◌≡◌, IfOk, IfSome};
ghost use Rattle.piquegravel.specs.Shown.{answered_text, shown_text};

use std::alloc::{AllocError, Global};
use std::fmt::Display;
use std::io::Write;
use text::split::Lines;

// How many bytes are gathered at the least before they go out at the end of a line.
pub(crate) const PART: usize = 65536;

// Answers all lines of the input, in their order. What is written is gathered, and goes out when a line is done, or where it fills the writer.
pub(crate) fn answer_lines<W: Write, F: FnMut(&[u8]) -> Result<Option<String>, AllocError>>(
    output: &mut W,
    input: &[u8],
    mut answer: F,
) -> anyhow::Result<()>
    requires { F.IsAlwaysCallable answer }
{
    let mut gathered = 0usize;
    for line in Lines::new(input) {
        let answer = answer(line)?;
        let text = shown(&answer);
        output.write_all(line)?;
        output.write_all(b" -> ")?;
        output.write_all(text)?;
        output.write_all(b"\n")?;
        // the arrow and the end of the line are five bytes
        gathered = gathered
            .saturating_add(line.len())
            .saturating_add(text.len())
            .saturating_add(5);
        if gathered >= PART {
            output.flush()?;
            gathered = 0;
        }
    }
    Ok(())
}

// What a call answers, or why it is refused, as text; a line that asks for no call has no text of its own.
pub(crate) fn text_of<T: Display + Drop, E: Display + Drop>(
    heap: Global,
    answered: Option<Result<T, E>>,
) -> Result<Option<String>, AllocError>
    ensures { IfOk result (λ text. IfSome (answered_text T.output E.output answered) (λ bytes. shown_text text ≡ bytes)) }
{
    Ok(match answered {
        Some(Ok(answer)) => Some(answer.to_string(heap)?),
        Some(Err(refusal)) => Some(refusal.to_string(heap)?),
        None => None,
    })
}

// What is written behind the arrow.
fn shown(text: &Option<String>) -> &[u8]
    ensures { result.now ≡ shown_text text.now }
{
    match text {
        Some(text) => text.as_bytes(),
        None => b"not a line",
    }
}
