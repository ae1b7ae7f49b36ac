// Reading keys from a line, as they are written: the two numbers of a key are two words.
ghost use Rattle.std.specs.Prelude.{◌≡◌, ℕ, List, Option};
ghost use Rattle.text.specs.Left.{left, behind_first};
ghost use Rattle.text.specs.Keyed.{piece_of, job_of};

use crate::split::Parts;
use keys::job::JobKey;
use keys::piece::PieceKey;

// A kind of key that two words can write.
pub trait WordKey: Sized {
    // The key that the first two words write, or nothing.
    ghost written: { List (List ℕ) → Option Self };

    // Reads the next two words as a key.
    fn read(words: &mut Parts) -> Option<Self>
        ensures key { result ≡ written (left words.old) }
        ensures rest { left words.new ≡ behind_first (behind_first (left words.old)) };
}

impl WordKey for PieceKey {
    ghost written = { piece_of };

    fn read(words: &mut Parts) -> Option<PieceKey> {
        let file = words.number::<u32>();
        let piece = words.number::<u32>();
        Some(PieceKey {
            file: file?,
            piece: piece?,
        })
    }
}

impl WordKey for JobKey {
    ghost written = { job_of };

    fn read(words: &mut Parts) -> Option<JobKey> {
        let urgency = words.number::<i32>();
        let number = words.number::<u32>();
        Some(JobKey {
            urgency: urgency?,
            number: number?,
        })
    }
}

impl<'a> Parts<'a> {
    // The next two words, as a key of the kind.
    pub fn key<K: WordKey>(&mut self) -> Option<K>
        ensures key { result ≡ K.written (left self.old) }
        ensures rest { left self.new ≡ behind_first (behind_first (left self.old)) }
    {
        K::read(self)
    }
}
