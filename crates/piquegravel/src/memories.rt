// The command `memory`: calls of a memory, answered line by line.
use crate::output::{answer_lines, text_of};
use memory::pointer::PointerMemory;
use memory_lines::line::MemoryLine;
use memory_lines::run::run_line;
use memory_reading::parse::parse_line;
use one_version::OneVersion;
use order::VersionOrder;
use single::node::Node;
use single::store::SingleMemory;
use std::io::Write;

// The kinds of memories.
#[derive(Clone, Copy)]
pub enum MemoryKind {
    Single,
}

impl MemoryKind {
    // The kind that three words name: the memory's, its order's and how many versions; a single-version memory asks for neither of the last.
    // No `TryFrom`, as for the kinds of orders.
    pub(crate) fn named(memory: &str, order: &str, versions: &str) -> Option<MemoryKind> {
        match (memory, order, versions) {
            ("single", "-", "-") => Some(MemoryKind::Single),
            _ => None,
        }
    }
}

// Answers all lines over a memory without versions, where lines about versions are none; then writes how many nodes were made and how many
// changes were accepted, of those that the memory may have.
fn answer_all<M: PointerMemory, O: VersionOrder>(
    rt: &HostRuntime,
    mem: &mut M,
    order: &O,
    output: &mut impl Write,
    input: &[u8],
) -> anyhow::Result<()> {
    let heap = rt.alloc();
    let nodes = mem.nodes_left();
    let changes = mem.changes_left();
    answer_lines(output, input, |line| {
        let answered = match parse_line(line) {
            Some(MemoryLine::Pointer(call)) => Some(run_line(mem, order, call)),
            _ => None,
        };
        text_of(heap, answered)
    })?;
    let made = nodes.saturating_sub(mem.nodes_left());
    let changed = changes.saturating_sub(mem.changes_left());
    Ok(writeln!(output, "{made} nodes, {changed} changes")?)
}

pub fn run_memory(
    rt: &HostRuntime,
    kind: MemoryKind,
    nodes: u32,
    changes: u32,
    output: &mut impl Write,
    input: &[u8],
) -> anyhow::Result<()> {
    match kind {
        MemoryKind::Single => {
            let table = vec![in rt.alloc(); Node::new(0, 0, 0); nodes.min(4096) as usize]?;
            match SingleMemory::make(nodes, changes, table) {
                Ok(mut mem) => answer_all(rt, &mut mem, &OneVersion, output, input),
                Err((refusal, _)) => Ok(writeln!(output, "{refusal}")?),
            }
        }
    }
}
