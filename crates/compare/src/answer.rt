// What a line of the comparison is answered with, and why it is refused.
ghost use Rattle.std.specs.Prelude.{◌≡◌};
ghost use Rattle.compare.specs.declared.answer.LineRefusal.TheVariants.{NoRoom};

use history::difference::Difference;
use refusals::kinds::BookRefusal;

// The answer to a line.
#[derive(Clone, Copy, PartialEq, Eq, Debug)]
pub enum Answer {
    // a file of the old build is recorded with that many pieces
    Recorded(u64),
    // a file of the new build against the record
    Judged(Result<(), Difference>),
}

// Why a line is refused.
#[derive(Clone, Copy, PartialEq, Eq, Debug)]
pub enum LineRefusal {
    // the number of fingerprints is not that of the pieces
    WrongCount { expected: u64, given: u64 },
    // a file of the old build stands twice
    AlreadyRecorded,
    // the record has no room for the file
    NoRoom(BookRefusal),
}

impl From<BookRefusal> for LineRefusal {
    ghost from_gives = { λ below e. e ≡ NoRoom below };

    fn from(below: BookRefusal) -> LineRefusal {
        LineRefusal::NoRoom(below)
    }
}
