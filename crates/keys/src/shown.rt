// Keys written as text: their two numbers with a space between. A name is written as its bytes.
ghost use Rattle.std.specs.Prelude.{Some};
ghost use Rattle.keys.specs.Shown.{piece_text, job_text};

use crate::job::JobKey;
use crate::piece::PieceKey;
use std::fmt;

impl fmt::Display for PieceKey {
    ghost output = { λ k. Some (piece_text k.file k.piece) };

    fn fmt<W: fmt::Write>(&self, f: &mut fmt::Formatter<W>) -> fmt::Result {
        let file = self.file;
        let piece = self.piece;
        write!(f, "{file} {piece}")
    }
}

impl fmt::Display for JobKey {
    ghost output = { λ k. Some (job_text k.urgency k.number) };

    fn fmt<W: fmt::Write>(&self, f: &mut fmt::Formatter<W>) -> fmt::Result {
        let urgency = self.urgency;
        let number = self.number;
        write!(f, "{urgency} {number}")
    }
}
