// The command `order`: calls of a version order, answered line by line.
use crate::orders::{MadeOrder, OrderKind};
use crate::output::{answer_lines, text_of};
use order_lines::parse::parse_line;
use order_lines::run::run_line;
use relabelled::list::RelabelledList;
use std::io::Write;
use two_level::list::TwoLevelList;

// Answers all lines over a new order of one kind.
fn answer_all<O: MadeOrder>(
    rt: &HostRuntime,
    limit: u32,
    output: &mut impl Write,
    input: &[u8],
) -> anyhow::Result<()> {
    let heap = rt.alloc();
    match O::made(heap, limit)? {
        Ok(mut order) => answer_lines(output, input, |line| {
            text_of(
                heap,
                parse_line(line).map(|asked| run_line(&mut order, asked)),
            )
        }),
        Err(refusal) => Ok(writeln!(output, "{refusal}")?),
    }
}

pub fn run_order(
    rt: &HostRuntime,
    kind: OrderKind,
    limit: u32,
    output: &mut impl Write,
    input: &[u8],
) -> anyhow::Result<()> {
    match kind {
        OrderKind::Relabelled => answer_all::<RelabelledList>(rt, limit, output, input),
        OrderKind::TwoLevel => answer_all::<TwoLevelList>(rt, limit, output, input),
    }
}
