// The key of a waiting job.
ghost use Rattle.keys.specs.Orders.{job_first};
ghost use Rattle.std.proofs.Common.{rules};

use crate::key::Key;
use std::cmp::Reverse;

// A job: how urgent it is, and its number. The more urgent one goes first; of two alike, the lower number.
#[derive(Clone, Copy, PartialEq, Eq, Debug)]
pub struct JobKey {
    pub urgency: i32,
    pub number: u32,
}

impl Key for JobKey {
    ghost first = { λ a b. job_first a.urgency a.number b.urgency b.number };

    ghost irreflexive = { Prim.search rules };

    ghost transitive = { Prim.search rules };

    ghost total = { Prim.search rules };

    fn goes_first(self, other: JobKey) -> bool {
        let rank = |job: JobKey| (Reverse(job.urgency), job.number);
        rank(self) < rank(other)
    }
}
