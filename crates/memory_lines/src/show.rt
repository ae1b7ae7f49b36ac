// The text of an answer.
ghost use Rattle.std.specs.Prelude.{Some};
ghost use Rattle.memory_lines.specs.Texts.{reply_text};

use crate::line::Reply;
use std::fmt;

impl fmt::Display for Reply {
    ghost output = { λ x. Some (reply_text x) };

    fn fmt<W: fmt::Write>(&self, f: &mut fmt::Formatter<W>) -> fmt::Result {
        match *self {
            Reply::Done => write!(f, "done"),
            Reply::Number(n) => write!(f, "{n}"),
            Reply::Truth(true) => write!(f, "yes"),
            Reply::Truth(false) => write!(f, "no"),
            Reply::NewVersion(n) => write!(f, "version {n}"),
        }
    }
}
