// The words of the command line.
ghost use Rattle.std.specs.Prelude.{◌<◌, IfSome, length};

use crate::memories::MemoryKind;
use crate::orders::OrderKind;
use std::alloc::{AllocError, Global};
use text::numbers::Number;

// What is to be run, in the order of the words.
#[derive(Clone, Copy)]
pub enum Command<'a> {
    Compare {
        file: &'a str,
    },
    Keys {
        file: &'a str,
    },
    Order {
        kind: OrderKind,
        limit: u32,
        file: &'a str,
    },
    TimeOrder {
        kind: OrderKind,
        items: u32,
    },
    Memory {
        kind: MemoryKind,
        nodes: u32,
        changes: u32,
        file: &'a str,
    },
}

pub const USAGE: &str = "usage: piquegravel COMMAND..
  compare FILE   which files changed between two builds: lines 'was FILE LENGTH PRINT..' and 'now FILE LENGTH PRINT..'
  keys FILE      which of two keys goes first: lines 'piece F P F P', 'name \"A\" \"B\"' and 'job U N U N'
  order relabelled|two-level V FILE
                 calls of a version order of at most V items: lines 'after A', 'before A B', 'successor A', 'count' and 'label A'
  memory single - - N C FILE
                 calls of a memory of at most N nodes and C changes: lines 'load ROOT REG', 'follow REG LINK INTO', 'move FROM INTO',
                 'key REG', 'value REG', 'mark REG', 'nil REG', 'same REG REG', 'make REG PLACE VALUE MARK', 'save ROOT REG',
                 'link REG LINK FROM', 'set-value REG X' and 'set-mark REG X'
  time-order relabelled|two-level ITEMS
                 how long the calls of a version order take
FILE is a path, or - for standard input. Several commands may follow one another.";

// A limit in decimal; what is too wide for 32 bits is as far outside every range as the widest such number.
fn read_limit(word: &str) -> Option<u32> {
    let n = u64::read(word.as_bytes())?;
    Some(u32::try_from(n).unwrap_or(u32::MAX))
}

// The command that the first words are, and the words behind it; nothing where it is not understood.
fn read_command<'a>(words: &'a [String]) -> Option<(Command<'a>, &'a [String])>
    ensures { IfSome result (λ p. length p.1.now < length words.now) }
{
    let [name, words @ ..] = words else {
        return None;
    };
    Some(match (name.as_str(), words) {
        ("compare", [file, rest @ ..]) => (
            Command::Compare {
                file: file.as_str(),
            },
            rest,
        ),
        ("keys", [file, rest @ ..]) => (
            Command::Keys {
                file: file.as_str(),
            },
            rest,
        ),
        ("order", [kind, limit, file, rest @ ..]) => {
            let kind = OrderKind::named(kind.as_str())?;
            let limit = read_limit(limit.as_str())?;
            let file = file.as_str();
            (Command::Order { kind, limit, file }, rest)
        }
        ("time-order", [kind, items, rest @ ..]) => {
            let kind = OrderKind::named(kind.as_str())?;
            let items = read_limit(items.as_str())?;
            (Command::TimeOrder { kind, items }, rest)
        }
        ("memory", [kind, order, versions, nodes, changes, file, rest @ ..]) => {
            let command = Command::Memory {
                kind: MemoryKind::named(kind.as_str(), order.as_str(), versions.as_str())?,
                nodes: read_limit(nodes.as_str())?,
                changes: read_limit(changes.as_str())?,
                file: file.as_str(),
            };
            (command, rest)
        }
        _ => return None,
    })
}

// The commands that the words of the command line ask for, of which the first names the program; nothing where one is not understood.
pub fn read_commands<'a>(
    heap: Global,
    words: &'a [String],
) -> Result<Option<Vec<Command<'a>>>, AllocError> {
    let mut commands = Vec::new(heap);
    let mut left = match words {
        [_, rest @ ..] => rest,
        [] => words,
    };
    while let Some((command, rest)) = read_command(left) {
        commands.push(command)?;
        left = rest;
    }
    Ok((!commands.is_empty() && left.is_empty()).then_some(commands))
}
