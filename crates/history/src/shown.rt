// A difference as text.
ghost use Rattle.std.specs.Prelude.{Some};
ghost use Rattle.history.specs.Shown.{difference_text};

use crate::difference::Difference;
use std::fmt;

impl fmt::Display for Difference {
    ghost output = { λ d. Some (difference_text d) };

    fn fmt<W: fmt::Write>(&self, f: &mut fmt::Formatter<W>) -> fmt::Result {
        match self {
            Difference::NotRecorded => write!(f, "not recorded"),
            Difference::Differs(k) => write!(f, "piece {k} differs"),
            Difference::Missing(k) => write!(f, "piece {k} is not recorded"),
            Difference::LeftOver(k) => write!(f, "piece {k} is left over"),
        }
    }
}
