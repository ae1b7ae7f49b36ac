// The command `keys`: which of two keys goes first.
use crate::output::{answer_lines, text_of};
use key_lines::reply::reply;
use std::io::Write;

pub fn run_keys(rt: &HostRuntime, output: &mut impl Write, input: &[u8]) -> anyhow::Result<()> {
    let heap = rt.alloc();
    answer_lines(output, input, |line| text_of(heap, Some(reply(line))))
}
