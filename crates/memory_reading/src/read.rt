// The call that the words of a line begin with: its own word, and as many numbers as it needs. Four functions, each of which leaves the other
// words to the next: tried as one match with more than three words and a way on, the proof did not close.
ghost use Rattle.std.specs.Prelude.{◌≡◌, IfSome};
ghost use Rattle.text.specs.Left.{left};
ghost use Rattle.memory_reading.specs.Words.{moves, numbers, truths, writes, begun, behind_pointer, behind_line};

use memory_lines::line::{MemoryLine, Move, PointerLine, Question, VersionLine, Write};
use text::split::Parts;

// A call that makes a node or writes.
fn writes(word: &[u8], words: &mut Parts) -> Option<PointerLine>
    ensures call { result ≡ writes word.now (left words.old) }
    ensures rest { IfSome result (λ l. left words.new ≡ behind_pointer l (left words.old)) }
{
    Some(PointerLine::Writes(match word {
        b"make" => Write::Make(
            words.number()?,
            words.number()?,
            words.number()?,
            words.number()?,
        ),
        b"save" => Write::Save(words.number()?, words.number()?),
        b"link" => Write::Link(words.number()?, words.number()?, words.number()?),
        b"set-value" => Write::SetValue(words.number()?, words.number()?),
        b"set-mark" => Write::SetMark(words.number()?, words.number()?),
        _ => return None,
    }))
}

// A call that answers yes or no, or one that makes or writes.
fn truths(word: &[u8], words: &mut Parts) -> Option<PointerLine>
    ensures call { result ≡ truths word.now (left words.old) }
    ensures rest { IfSome result (λ l. left words.new ≡ behind_pointer l (left words.old)) }
{
    Some(PointerLine::Asks(match word {
        b"nil" => Question::Nil(words.number()?),
        b"same" => Question::Same(words.number()?, words.number()?),
        _ => return writes(word, words),
    }))
}

// A call that answers a number, or one of those.
fn numbers(word: &[u8], words: &mut Parts) -> Option<PointerLine>
    ensures call { result ≡ numbers word.now (left words.old) }
    ensures rest { IfSome result (λ l. left words.new ≡ behind_pointer l (left words.old)) }
{
    Some(PointerLine::Asks(match word {
        b"key" => Question::Key(words.number()?),
        b"value" => Question::Value(words.number()?),
        b"mark" => Question::Mark(words.number()?),
        _ => return truths(word, words),
    }))
}

// A call that moves registers, or one of those: any call of a pointer memory.
fn moves(word: &[u8], words: &mut Parts) -> Option<PointerLine>
    ensures call { result ≡ moves word.now (left words.old) }
    ensures rest { IfSome result (λ l. left words.new ≡ behind_pointer l (left words.old)) }
{
    Some(PointerLine::Moves(match word {
        b"load" => Move::Load(words.number()?, words.number()?),
        b"follow" => Move::Follow(words.number()?, words.number()?, words.number()?),
        b"move" => Move::Copy(words.number()?, words.number()?),
        _ => return numbers(word, words),
    }))
}

// A call about versions, or one of those.
pub(crate) fn begun(words: &mut Parts) -> Option<MemoryLine>
    ensures call { result ≡ begun (left words.old) }
    ensures rest { IfSome result (λ l. left words.new ≡ behind_line l (left words.old)) }
{
    let word = words.next()?;
    Some(match word {
        b"open" => MemoryLine::Version(VersionLine::Open(words.number()?)),
        b"enter" => MemoryLine::Version(VersionLine::Enter(words.number()?)),
        b"close" => MemoryLine::Version(VersionLine::Close),
        _ => MemoryLine::Pointer(moves(word, words)?),
    })
}
