// Answers as text.
ghost use Rattle.std.specs.Prelude.{Some};
ghost use Rattle.key_lines.specs.Shown.{which_text, key_refusal_text};

use crate::answer::{KeyRefusal, Which};
use std::fmt;

impl fmt::Display for Which {
    ghost output = { λ w. Some (which_text w) };

    fn fmt<W: fmt::Write>(&self, f: &mut fmt::Formatter<W>) -> fmt::Result {
        match *self {
            Which::First => write!(f, "first"),
            Which::Second => write!(f, "second"),
            Which::Equal => write!(f, "equal"),
        }
    }
}

impl fmt::Display for KeyRefusal {
    ghost output = { λ e. Some (key_refusal_text e) };

    fn fmt<W: fmt::Write>(&self, f: &mut fmt::Formatter<W>) -> fmt::Result {
        match *self {
            KeyRefusal::Name(below) => write!(f, "{below}"),
            KeyRefusal::NotALine => write!(f, "not a line"),
        }
    }
}
