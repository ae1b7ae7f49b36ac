// Runs a line over any pointer memory and any order. It takes both and no `Working`: lines about versions, which are run beside these, change
// the order too, and a `Working` would be made for each line.
ghost use Rattle.memory.specs.Promises.{Does, Tells};
ghost use Rattle.memory_lines.specs.Replies.{move_step, question_step, write_step, pointer_step};

use crate::line::{Move, PointerLine, Question, Reply, Write};
use memory::pointer::PointerMemory;
use order::VersionOrder;
use refusals::kinds::MemoryRefusal;

// Moves registers.
// Here and below `as usize` stays: the library has no `From<u32>` for `usize`, and `try_from` would add a refusal that never comes.
fn run_move<M: PointerMemory, O: VersionOrder>(
    mem: &mut M,
    order: &O,
    line: Move,
) -> Result<Reply, MemoryRefusal>
    ensures { Does (λ s. M.means s (O.items order.now)) mem.old mem.new result (move_step line) }
{
    match line {
        Move::Load(root, reg) => mem.load(order, root as usize, reg as usize)?,
        Move::Follow(from, side, reg) => {
            mem.follow(order, from as usize, side as usize, reg as usize)?
        }
        Move::Copy(from, reg) => mem.copy(order, from as usize, reg as usize)?,
    }
    Ok(Reply::Done)
}

// Asks a question.
fn run_question<M: PointerMemory, O: VersionOrder>(
    mem: &M,
    order: &O,
    line: Question,
) -> Result<Reply, MemoryRefusal>
    ensures { Tells (λ s. M.means s (O.items order.now)) mem.now result (question_step line) }
{
    Ok(match line {
        Question::Key(reg) => Reply::Number(u64::from(mem.key(order, reg as usize)?)),
        Question::Value(reg) => Reply::Number(mem.value(order, reg as usize)?),
        Question::Mark(reg) => Reply::Number(u64::from(mem.mark(order, reg as usize)?)),
        Question::Nil(reg) => Reply::Truth(mem.is_nil(order, reg as usize)?),
        Question::Same(a, b) => Reply::Truth(mem.same(order, a as usize, b as usize)?),
    })
}

// Makes a node or writes.
fn run_write<M: PointerMemory, O: VersionOrder>(
    mem: &mut M,
    order: &O,
    line: Write,
) -> Result<Reply, MemoryRefusal>
    ensures { Does (λ s. M.means s (O.items order.now)) mem.old mem.new result (write_step line) }
{
    match line {
        Write::Make(reg, key, value, mark) => mem.make(order, reg as usize, key, value, mark)?,
        Write::Save(root, reg) => mem.save(order, root as usize, reg as usize)?,
        Write::Link(from, side, reg) => {
            mem.link(order, from as usize, side as usize, reg as usize)?
        }
        Write::SetValue(reg, x) => mem.set_value(order, reg as usize, x)?,
        Write::SetMark(reg, x) => mem.set_mark(order, reg as usize, x)?,
    }
    Ok(Reply::Done)
}

// Does what the line calls for, and replies; a refused line leaves the memory as it was.
pub fn run_line<M: PointerMemory, O: VersionOrder>(
    mem: &mut M,
    order: &O,
    line: PointerLine,
) -> Result<Reply, MemoryRefusal>
    ensures { Does (λ s. M.means s (O.items order.now)) mem.old mem.new result (pointer_step line) }
{
    match line {
        PointerLine::Moves(moves) => run_move(mem, order, moves),
        PointerLine::Asks(question) => run_question(mem, order, question),
        PointerLine::Writes(write) => run_write(mem, order, write),
    }
}
