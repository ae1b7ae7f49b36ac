// The program: commands over files of lines, each answered line by line on standard output.
#![tactic(auto)]

mod comparing;
mod keying;
mod memories;
mod ordering;
mod orders;
mod output;
mod timing;
mod usage;

use anyhow::anyhow;
use comparing::run_compare;
use keying::run_keys;
use memories::run_memory;
use ordering::run_order;
use output::PART;
use std::io::{self, BufWriter, Read, Write};
use std::{env, fs};
use timing::run_time_order;
use usage::{Command, USAGE, read_commands};

// All bytes of a file; `-` is standard input.
fn input(rt: &HostRuntime, file: &str) -> anyhow::Result<Vec<u8>> {
    if file == "-" {
        let mut bytes = Vec::new(rt.alloc());
        rt.stdin().read_to_end(&mut bytes)?;
        return Ok(bytes);
    }
    Ok(fs::read(rt, file)?)
}

// Runs one command.
fn run_command(rt: &HostRuntime, command: Command, output: &mut impl Write) -> anyhow::Result<()> {
    match command {
        Command::Compare { file } => run_compare(rt, output, input(rt, file)?.as_slice()),
        Command::Keys { file } => run_keys(rt, output, input(rt, file)?.as_slice()),
        Command::Order { kind, limit, file } => {
            run_order(rt, kind, limit, output, input(rt, file)?.as_slice())
        }
        Command::Memory {
            kind,
            nodes,
            changes,
            file,
        } => run_memory(
            rt,
            kind,
            nodes,
            changes,
            output,
            input(rt, file)?.as_slice(),
        ),
        Command::TimeOrder { kind, items } => run_time_order(rt, kind, items),
    }
}

// Runs the commands in their order; what one writes is out before the next begins.
fn run_commands(
    rt: &HostRuntime,
    commands: &[Command],
    output: &mut impl Write,
) -> anyhow::Result<()> {
    for command in commands {
        run_command(rt, *command, output)?;
        output.flush()?;
    }
    Ok(())
}

fn run(rt: &HostRuntime) -> anyhow::Result<()> {
    let words: Vec<String> = env::args(rt)?.collect(rt.alloc())?;
    let Some(commands) = read_commands(rt.alloc(), words.as_slice())? else {
        eprintln!(rt; "{USAGE}")?;
        return Err(anyhow!("these words are no commands"));
    };
    let mut output = BufWriter::with_capacity(rt.alloc(), 2 * PART, io::writer(rt))?;
    let ran = run_commands(rt, commands.as_slice(), &mut output);
    // The lines that are gathered when a command fails are not written; a writer that is let go would write them.
    let _unwritten = output.into_parts();
    ran
}

fn main(rt: HostRuntime) -> anyhow::Result<()> {
    run(&rt)
}
