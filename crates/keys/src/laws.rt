// What the definitions of keys say, as theorems in the subject's own words.
ghost use Rattle.keys.specs.Laws.{PiecesCover, EqualNamesAreOne, NamesByFirstDifference};

// The piece rule, and names: the theorems hold.
pub fn key_laws_hold() -> u8
    ensures pieces { PiecesCover }
    ensures names { EqualNamesAreOne }
    ensures order { NamesByFirstDifference }
{
    0
}
