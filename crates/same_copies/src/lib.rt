// Copies that agree as far as they are there, and a split done by visits. No code of tables; each function below states theorems,
// which its proof gives.
#![tactic(auto)]

ghost use Rattle.same_copies.specs.Same.{SameKept, SameSound, SameStands, SameThreaded};
ghost use Rattle.same_copies.specs.Visits.{VisitsSplit};

// What holds of copies holds of copies that agree with them.
pub fn same_holds() -> u8
    ensures sound { SameSound }
    ensures threaded { SameThreaded }
    ensures kept { SameKept }
    ensures stands { SameStands }
{
    0
}

// Visiting the copies that the split copy names, and cutting it, is the split.
pub fn visits_split() -> u8
    ensures { VisitsSplit }
{
    0
}
