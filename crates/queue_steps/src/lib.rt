// The queues' rows of steps. Each function here names theorems by its contract; nothing of it is run.
#![tactic(auto)]

ghost use Rattle.queue_steps.specs.Theorems.{MergeSteps, PushJoins, PopTakes, TopAnswersHold, ReleaseMerges};

// Two heaps under registers become the merged heap.
pub fn merge_theorem_holds() -> u8
    ensures { MergeSteps }
{
    0
}

// A job joins a queue; the first due job goes, or is only answered; the held jobs become due.
pub fn queue_theorems_hold() -> u8
    ensures push { PushJoins }
    ensures pop { PopTakes }
    ensures top { TopAnswersHold }
    ensures release { ReleaseMerges }
{
    0
}
