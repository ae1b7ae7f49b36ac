// Answers and refusals as text.
ghost use Rattle.std.specs.Prelude.{Some};
ghost use Rattle.compare.specs.Shown.{answer_text, refusal_text};

use crate::answer::{Answer, LineRefusal};
use std::fmt;

impl fmt::Display for Answer {
    ghost output = { λ a. Some (answer_text a) };

    fn fmt<W: fmt::Write>(&self, f: &mut fmt::Formatter<W>) -> fmt::Result {
        match self {
            Answer::Recorded(n) => write!(f, "{n} pieces"),
            Answer::Judged(Ok(())) => write!(f, "unchanged"),
            Answer::Judged(Err(difference)) => write!(f, "rebuild: {difference}"),
        }
    }
}

impl fmt::Display for LineRefusal {
    ghost output = { λ e. Some (refusal_text e) };

    fn fmt<W: fmt::Write>(&self, f: &mut fmt::Formatter<W>) -> fmt::Result {
        match self {
            LineRefusal::WrongCount { expected, given } => write!(
                f,
                "{expected} pieces expected, {given} given"
            ),
            LineRefusal::AlreadyRecorded => write!(f, "already recorded"),
            LineRefusal::NoRoom(below) => write!(f, "{below}"),
        }
    }
}
