// Recording all pieces of a file.
ghost use Rattle.std.specs.Prelude.{◌≡◌, OnErr};
ghost use Rattle.books.specs.Books.{book_keys, book_room, SameSlots};
ghost use Rattle.history.specs.Files.{file_answer, pieces_after};

use crate::record::{History, NotedPiece};
use keys::piece::PieceKey;
use refusals::kinds::BookRefusal;

// Records the file's pieces, from 0 on, with these fingerprints; refused where the book has not room for all, and then nothing is written.
pub fn note_file(history: &mut History, file: u32, prints: &[u64]) -> Result<(), BookRefusal>
    ensures answer { result ≡ file_answer (book_keys history.old) (book_room history.old) prints.now }
    ensures pieces { book_keys history.new ≡ pieces_after (book_keys history.old) (book_room history.old) file prints.now }
    ensures slots { SameSlots history.old history.new }
    ensures refused { OnErr result (history.new ≡ history.old) }
{
    if history.room() - history.count() < prints.len() || u32::try_from(prints.len()).is_err() {
        return Err(BookRefusal::Full);
    }
    for (k, print) in prints.iter().enumerate() {
        let key = PieceKey {
            file,
            // below the number of fingerprints, which fits 32 bits
            piece: k as u32,
        };
        history.push(NotedPiece { key, print: *print })?;
    }
    Ok(())
}
