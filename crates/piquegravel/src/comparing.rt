// The command `compare`: which files changed between two builds.
use crate::output::{answer_lines, text_of};
use books::book::Book;
use compare::answer::Answer;
use compare::read::read_line;
use compare::reply::reply;
use history::difference::Difference;
use history::record::NotedPiece;
use keys::piece::PieceKey;
use std::io::Write;

// How many files were found unchanged, and how many are to be built again.
#[derive(Clone, Copy)]
struct Totals {
    unchanged: u64,
    rebuild: u64,
}

impl Totals {
    // One file more.
    fn count(&mut self, judged: Result<(), Difference>) {
        let counted = match judged {
            Ok(()) => &mut self.unchanged,
            Err(_) => &mut self.rebuild,
        };
        *counted = counted.saturating_add(1);
    }
}

// How many fingerprints the input can have at most: a space stands before each.
fn most_prints(input: &[u8]) -> usize {
    input.iter().filter(|&b| *b == b' ').count()
}

pub fn run_compare(rt: &HostRuntime, output: &mut impl Write, input: &[u8]) -> anyhow::Result<()> {
    let heap = rt.alloc();
    let blank = NotedPiece {
        key: PieceKey { file: 0, piece: 0 },
        print: 0,
    };
    let mut slots = vec![in heap; blank; most_prints(input)]?;
    let mut history = Book::new(slots.as_mut_slice());
    let mut totals = Totals {
        unchanged: 0,
        rebuild: 0,
    };
    answer_lines(output, input, |line| {
        let answered = read_line(heap, line)?.map(|file| reply(&mut history, &file));
        if let Some(Ok(Answer::Judged(judged))) = answered {
            totals.count(judged);
        }
        text_of(heap, answered)
    })?;
    let Totals { unchanged, rebuild } = totals;
    Ok(writeln!(output, "{unchanged} files unchanged, {rebuild} to rebuild")?)
}
