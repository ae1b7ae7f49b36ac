// Entry lists: the theory of reading a field at a version, and of writing, renaming and parting the entries. No code of tables;
// each function below states theorems, which its proof gives.
#![tactic(auto)]

ghost use Rattle.entries.specs.Counts.{PutAdds, RenamedAdds, SplitHalves};
ghost use Rattle.entries.specs.Entries.{KeepReads, PutReads, RenamedReads, SplitReads};

// What is read after entries are written, added, renamed and parted.
pub fn reads_stand() -> u8
    ensures written { PutReads }
    ensures added { KeepReads }
    ensures renamed { RenamedReads }
    ensures parted { SplitReads }
{
    0
}

// How many entries there are afterwards.
pub fn counts_stand() -> u8
    ensures written { PutAdds }
    ensures renamed { RenamedAdds }
    ensures halves { SplitHalves }
{
    0
}
