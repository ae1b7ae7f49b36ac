// The text of an answer.
ghost use Rattle.std.specs.Prelude.{Some};
ghost use Rattle.order_lines.specs.Texts.{answer_text};

use crate::line::OrderAnswer;
use std::fmt;

impl fmt::Display for OrderAnswer {
    ghost output = { λ x. Some (answer_text x) };

    fn fmt<W: fmt::Write>(&self, f: &mut fmt::Formatter<W>) -> fmt::Result {
        match *self {
            OrderAnswer::NewItem(n)
            | OrderAnswer::Next(Some(n))
            | OrderAnswer::Total(n)
            | OrderAnswer::LabelIs(n) => write!(f, "{n}"),
            OrderAnswer::Next(None) => write!(f, "nothing"),
            OrderAnswer::IsBefore(true) => write!(f, "yes"),
            OrderAnswer::IsBefore(false) => write!(f, "no"),
        }
    }
}
