// What reading means, as theorems: a text is read exactly where it is what is written.
ghost use Rattle.text.specs.Laws.{NumbersReadBack, NumbersAreWritten, IntegersReadBack, IntegersAreWritten, PartsJoin, PartsSplit, PiecesReadBack, PiecesAreWritten, JobsReadBack, JobsAreWritten};

// Numbers are read as they are written.
pub fn number_laws_hold() -> u8
    ensures back { NumbersReadBack }
    ensures written { NumbersAreWritten }
    ensures signed_back { IntegersReadBack }
    ensures signed_written { IntegersAreWritten }
{
    0
}

// So are words and keys.
pub fn key_text_laws_hold() -> u8
    ensures join { PartsJoin }
    ensures split { PartsSplit }
    ensures piece_back { PiecesReadBack }
    ensures piece_written { PiecesAreWritten }
    ensures job_back { JobsReadBack }
    ensures job_written { JobsAreWritten }
{
    0
}
