// Meaning: a splitting memory steps as the abstract memory does, call by call, and within its space. No code of tables; each function
// below states theorems, which its proof gives.
#![tactic(auto)]

ghost use Rattle.meaning.specs.Meaning.{FreshStands, ReadsAgree, SplitStands, StandsSpaced, VersionsAgree, WritesAgree};

// A fresh memory stands for the fresh abstract memory, and each call steps as the abstract memory does.
pub fn calls_agree() -> u8
    ensures fresh { FreshStands }
    ensures reads { ReadsAgree }
    ensures writes { WritesAgree }
    ensures versions { VersionsAgree }
{
    0
}

// A split leaves the meaning as it is, and copies and entries stay within the bounds.
pub fn splits_agree() -> u8
    ensures split { SplitStands }
    ensures space { StandsSpaced }
{
    0
}
