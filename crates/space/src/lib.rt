// Space: how many copies and entries a splitting memory can use, over every run, and that every version keeps its state. No code of
// tables; each function below states theorems, which its proof gives.
#![tactic(auto)]

ghost use Rattle.space.specs.Figure.{Figure};
ghost use Rattle.space.specs.Runs.{AllowedRuns, CascadeEnds, KeptSpaced, RunKeeps, StepKeeps};
ghost use Rattle.space.specs.Space.{ChangeAdds, RelinkThree, SplitAdds, SplitVersionFits};

// What changes add to the entries and to the surplus, and what a split takes.
pub fn space_stands() -> u8
    ensures change { ChangeAdds }
    ensures three { RelinkThree }
    ensures version { SplitVersionFits }
    ensures split { SplitAdds }
{
    0
}

// Every run keeps every version its own state, within the space; splits end.
pub fn runs_stand() -> u8
    ensures step { StepKeeps }
    ensures run { RunKeeps }
    ensures space { KeptSpaced }
    ensures allowed { AllowedRuns }
    ensures cascade { CascadeEnds }
{
    0
}

// The worked figure.
pub fn figure_stands() -> u8
    ensures { Figure }
{
    0
}
