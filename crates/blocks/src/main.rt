// Reads lines from standard input and answers each with one line: the block of a letter, the letter of a block, or why neither.
#![tactic(auto)]

ghost use Rattle.std.specs.Prelude.{◌≡◌, None, IsErrOf};
ghost use Rattle.blocks.specs.Lines.{text_of};
ghost use Rattle.blocks.specs.declared.answers.Refusal.TheVariants.{NotUnderstood};
ghost use Rattle.blocks.specs.declared.commands.Misread.TheVariants.{LongLine};

use answers::{Answer, Refusal, write_line};
use commands::{Command, Misread};
use lines::Line;
use std::io;
use std::io::{Read, Write};

mod answers;
mod commands;
mod hex;
mod lines;
mod words;

// The answer to a line.
fn reply(line: &Line) -> Result<Answer<'_>, Refusal>
    ensures { text_of line.now ≡ None → IsErrOf result (NotUnderstood LongLine) }
{
    let text = line.text().ok_or(Misread::LongLine)?;
    Answer::to(Command::parse(text)?)
}

// Takes in a chunk of the input, and answers each line that ends in it.
fn feed<W: Write>(chunk: &[u8], line: &mut Line, out: &mut W) -> io::Result<()> {
    for &byte in chunk {
        if byte == b'\n' {
            line.drop_return();
            write_line(&reply(line), out)?;
            line.clear();
        } else {
            line.add(byte);
        }
    }
    Ok(())
}

// Answers the whole input.
fn run(rt: &HostRuntime) -> io::Result<()> {
    let mut input = rt.stdin();
    let mut out = rt.stdout();
    let mut line = Line::new();
    let mut chunk = [0u8; 8192];
    // Kept: a chunk and its count, since a buffered reader asks for memory and `bytes` calls the system for each byte;
    // the count of turns only says that the loop ends.
    for _ in 0..u64::MAX {
        let count = input.read(&mut chunk)?;
        if count == 0 {
            break;
        }
        feed(&chunk[..count], &mut line, &mut out)?;
    }
    if !line.is_empty() {
        write_line(&reply(&line), &mut out)?;
    }
    out.flush()
}

fn main(rt: HostRuntime) -> io::Result<()> {
    run(&rt)
}
