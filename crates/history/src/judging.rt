// Looking up fingerprints, and judging whether a file is unchanged.
ghost use Rattle.std.specs.Prelude.{◌≡◌, true, false, length, Err, MatchResult};
ghost use Rattle.history.specs.Prints.{found_in};
ghost use Rattle.history.specs.Same.{Unchanged, SomePiece, NoPiece};
ghost use Rattle.history.specs.Verdicts.{AgreeBelow, Judged, LowestFrom};

use crate::difference::Difference;
use crate::record::History;

// Whether any piece of the file is recorded.
pub fn records(history: &History, file: u32) -> bool
    ensures some { result ≡ true → SomePiece (found_in history.now file) }
    ensures none { result ≡ false → NoPiece (found_in history.now file) }
{
    let noted_pieces = history.as_slice();
    noted_pieces.iter().any(|noted| noted.key.file == file)
}

// The fingerprint first recorded for this piece of the file, or nothing.
pub fn print_of(history: &History, file: u32, piece: u32) -> Option<u64>
    ensures { result ≡ found_in history.now file piece }
{
    found(history, file, u64::from(piece))
}

// The same for any number, also one that no key can hold.
fn found(history: &History, file: u32, piece: u64) -> Option<u64>
    ensures { result ≡ found_in history.now file piece }
{
    let noted_pieces = history.as_slice();
    noted_pieces
        .iter()
        .find(|noted| noted.key.file == file && u64::from(noted.key.piece) == piece)
        .map(|noted| noted.print)
}

// Whether the file with these fingerprints is as recorded, or which piece is the first that is not.
// A file's number and fingerprints are two fields of its line; a struct of both would be made at each call, only to be taken apart.
pub fn judge(history: &History, file: u32, prints: &[u64]) -> Result<(), Difference>
    ensures { Judged (found_in history.now file) prints.now result }
{
    if !records(history, file) {
        return if prints.is_empty() {
            Ok(())
        } else {
            Err(Difference::NotRecorded)
        };
    }
    agree(history, file, prints)?;
    match lowest_from(history, file, prints.len() as u64) {
        Some(piece) => Err(Difference::LeftOver(piece)),
        None => Ok(()),
    }
}

// Whether the file's pieces are recorded with just these fingerprints, and no piece more.
pub fn unchanged(history: &History, file: u32, prints: &[u64]) -> bool
    ensures sound { result ≡ true → Unchanged (found_in history.now file) prints.now }
    ensures complete { Unchanged (found_in history.now file) prints.now → result ≡ true }
{
    judge(history, file, prints).is_ok()
}

// Whether each piece is recorded with its fingerprint, or how the first that is not differs.
fn agree(history: &History, file: u32, prints: &[u64]) -> Result<(), Difference>
    requires { SomePiece (found_in history.now file) }
    ensures { MatchResult result (λ _. AgreeBelow (found_in history.now file) prints.now (length prints.now)) (λ difference. Judged (found_in history.now file) prints.now (Err difference)) }
{
    for (k, print) in prints.iter().enumerate() {
        let piece = k as u64;
        let recorded = found(history, file, piece).ok_or(Difference::Missing(piece))?;
        if recorded != *print {
            return Err(Difference::Differs(piece));
        }
    }
    Ok(())
}

// The lowest recorded piece of the file from this number on.
fn lowest_from(history: &History, file: u32, from: u64) -> Option<u64>
    ensures { LowestFrom (found_in history.now file) from result }
{
    let noted_pieces = history.as_slice();
    noted_pieces
        .iter()
        .filter(|noted| noted.key.file == file && u64::from(noted.key.piece) >= from)
        .map(|noted| u64::from(noted.key.piece))
        .min()
}
