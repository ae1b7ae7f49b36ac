// Trees in a memory: how their nodes stand there, and what rows of steps make of the tree under a register. Each function here names
// theorems by its contract; nothing of it is run.
#![tactic(auto)]

ghost use Rattle.stored.specs.Theorems.{RotationTurns, IdleWritesHold};

// A rotation turns the tree under its register, whatever the marks mean.
pub fn rotation_turns<M>() -> u8
    ensures { RotationTurns M }
{
    0
}

// What holds what it should is not written.
pub fn idle_writes_hold() -> u8
    ensures { IdleWritesHold }
{
    0
}
