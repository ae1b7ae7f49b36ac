// The queues' rows of steps as code, over any memory, any order and any key: two heaps are merged down their right sides, and the calls of a
// queue are made of that. Each function runs its row, from whatever its memory means. Memory and book stand apart: the trees' calls below use
// no book, and a struct of both would be taken apart there.
#![tactic(auto)]

pub mod calls;
mod levels;
mod merging;
