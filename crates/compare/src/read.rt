// Reading a line of the comparison.
ghost use Rattle.std.specs.Prelude.{◌≡◌, IfOk, OnSome};
ghost use Rattle.std.specs.Option.{option_map};
ghost use Rattle.text.specs.Parts.{words};
ghost use Rattle.text.specs.Left.{left, behind_first};
ghost use Rattle.compare.specs.Lines.{build_of, head_of, line_of, meaning};

use crate::line::{Build, FileLine};
use std::alloc::{AllocError, Global};
use text::split::Parts;

// The build that a word names. No `TryFrom`: a word that names none is no error of its own, only no line.
fn build_of(word: &[u8]) -> Option<Build>
    ensures { result ≡ build_of word.now }
{
    match word {
        b"was" => Some(Build::Was),
        b"now" => Some(Build::Now),
        _ => None,
    }
}

// The build, the file and its length, which the next three words name.
fn head(words: &mut Parts) -> Option<(Build, u32, u64)>
    ensures head { result ≡ head_of (left words.old) }
    ensures rest { OnSome result (left words.new ≡ behind_first (behind_first (behind_first (left words.old)))) }
{
    let build = build_of(words.next()?)?;
    let file = words.number::<u32>()?;
    let length = words.number::<u64>()?;
    Some((build, file, length))
}

// The file that a line speaks of, or nothing where it is no such line.
pub fn read_line(heap: Global, line: &[u8]) -> Result<Option<FileLine>, AllocError>
    ensures { IfOk result (λ o. option_map meaning o ≡ line_of (words line.now)) }
{
    let mut words = Parts::words(line);
    let Some((build, file, length)) = head(&mut words) else {
        return Ok(None);
    };
    let prints = words.numbers(heap)?;
    Ok(prints.map(|prints| FileLine {
        build,
        file,
        length,
        prints,
    }))
}
