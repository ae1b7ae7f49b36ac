// Answering a line: a file of the old build is recorded, one of the new build is held against the record.
ghost use Rattle.books.specs.Books.{book_keys, book_room, SameSlots};
ghost use Rattle.compare.specs.Lines.{meaning};
ghost use Rattle.compare.specs.Answers.{Answered, Kept};

use crate::answer::{Answer, LineRefusal};
use crate::line::{Build, FileLine};
use history::judging::{judge, records};
use history::notes::note_file;
use history::record::History;
use keys::piece::pieces_of;

// Records a file of the old build, once.
fn record_file(history: &mut History, line: &FileLine) -> Result<Answer, LineRefusal>
    ensures answer { Kept (book_keys history.old) (book_room history.old) (meaning line.now) result (book_keys history.new) }
    ensures slots { SameSlots history.old history.new }
{
    if records(history, line.file) {
        return Err(LineRefusal::AlreadyRecorded);
    }
    note_file(history, line.file, &line.prints)?;
    Ok(Answer::Recorded(line.prints.len() as u64))
}

// The answer to a line, and the record after it.
pub fn reply(history: &mut History, line: &FileLine) -> Result<Answer, LineRefusal>
    ensures answer { Answered (book_keys history.old) (book_room history.old) (meaning line.now) result (book_keys history.new) }
    ensures slots { SameSlots history.old history.new }
{
    let expected = pieces_of(line.length);
    let given = line.prints.len() as u64;
    if expected != given {
        return Err(LineRefusal::WrongCount { expected, given });
    }
    match line.build {
        Build::Was => record_file(history, line),
        Build::Now => Ok(Answer::Judged(judge(history, line.file, &line.prints))),
    }
}
