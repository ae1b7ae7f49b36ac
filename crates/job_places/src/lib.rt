// Jobs as places of a book that grows. The function here names theorems by its contract; nothing of it is run.
#![tactic(auto)]

ghost use Rattle.job_places.specs.Jobs.{QueuesOutlast, JobsStay};

// The queues stay what they are as keys are added to the book, and their calls keep every job in it.
pub fn jobs_hold<K>() -> u8
    ensures outlast { QueuesOutlast K }
    ensures stay { JobsStay }
{
    0
}
