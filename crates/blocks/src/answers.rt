// The answers to commands, and how they are written.
ghost use Rattle.std.specs.Prelude.{◌≡◌, Some};
ghost use Rattle.block.specs.Letters.{said_by};
ghost use Rattle.blocks.specs.declared.answers.Refusal.TheVariants.{Refused, NotUnderstood};
ghost use Rattle.blocks.specs.Reasons.{refusal_text};
ghost use Rattle.blocks.specs.Answers.{Answered};
ghost use Rattle.blocks.specs.Listing.{names_text, body_text, letter_text};

use crate::commands::{Command, Misread};
use crate::hex::HexBytes;
use crate::lines::LONGEST_LINE;
use arrayvec::ArrayVec;
use block::{Block, BlockFault, Letter, Name};
use std::io::Write;
use std::{fmt, io};

// The longest answer, in bytes: a comment of the longest line, repeated, and the end of its line.
const LONGEST_ANSWER: usize = LONGEST_LINE + 1;

// What is answered to a line that is understood.
#[derive(Drop)]
pub enum Answer<'a> {
    // the bytes of a comment
    Same(&'a [u8]),
    // the block of a letter
    Written(Block),
    // the letter of a block
    Found(Letter),
}

// Why a line has no answer.
#[derive(Clone, Copy, PartialEq, Eq, Debug)]
pub enum Refusal {
    // why the letter or the block was refused
    Refused(BlockFault),
    // why the line is no command
    NotUnderstood(Misread),
}

impl From<BlockFault> for Refusal {
    ghost from_gives = { λ fault refusal. refusal ≡ Refused fault };

    fn from(fault: BlockFault) -> Refusal {
        Refusal::Refused(fault)
    }
}

impl From<Misread> for Refusal {
    ghost from_gives = { λ reason refusal. refusal ≡ NotUnderstood reason };

    fn from(reason: Misread) -> Refusal {
        Refusal::NotUnderstood(reason)
    }
}

impl fmt::Display for Refusal {
    ghost output = { λ refusal. Some (refusal_text refusal) };

    fn fmt<W: fmt::Write>(&self, f: &mut fmt::Formatter<W>) -> fmt::Result {
        match self {
            Refusal::Refused(fault) => write!(f, "{fault}"),
            Refusal::NotUnderstood(reason) => write!(f, "not understood: {reason}"),
        }
    }
}

impl<'a> Answer<'a> {
    // The answer to a command.
    pub fn to(command: Command<'a>) -> Result<Answer<'a>, Refusal>
        ensures { Answered command.entry result }
    {
        match command {
            Command::Comment(line) => Ok(Answer::Same(line)),
            Command::Write(draft) => Ok(Answer::Written(draft.block()?)),
            Command::Read(bytes) => Ok(Answer::Found(Letter::read(&bytes)?)),
        }
    }

    // Writes the answer without the end of its line.
    fn write_to<W: Write>(&self, out: &mut W) -> io::Result<()> {
        match self {
            Answer::Same(line) => out.write_all(line),
            Answer::Written(block) => write!(out, "{}", HexBytes(block)),
            Answer::Found(letter) => write!(out, "{}", Listing(letter)),
        }
    }
}

// Writes what is answered to a line and the end of the line, in one piece, which is gathered in fixed memory.
pub fn write_line<W: Write>(answer: &Result<Answer<'_>, Refusal>, out: &mut W) -> io::Result<()> {
    let mut line: ArrayVec<u8, LONGEST_ANSWER> = ArrayVec::new();
    match answer {
        Ok(answer) => answer.write_to(&mut line)?,
        Err(refusal) => write!(line, "{refusal}")?,
    }
    line.write_all(b"\n")?;
    out.write_all(&line)
}

// A letter, to be listed part by part.
#[derive(Clone, Copy)]
struct Listing<'a>(&'a Letter);

impl fmt::Display for Listing<'_> {
    ghost output = { λ x. Some (letter_text (said_by x.0.now)) };

    fn fmt<W: fmt::Write>(&self, f: &mut fmt::Formatter<W>) -> fmt::Result {
        let letter = self.0;
        write!(f, "letter {} names{}", letter.name(), Names(letter))?;
        write!(f, " mask {} check {}", letter.mask(), letter.check())?;
        write!(f, " body {}", Body(letter.body()))
    }
}

// The names that a letter names, to be written by ascending pair, each after a space, or that there are none.
#[derive(Clone, Copy)]
struct Names<'a>(&'a Letter);

impl fmt::Display for Names<'_> {
    ghost output = { λ x. Some (names_text (said_by x.0.now).named) };

    fn fmt<W: fmt::Write>(&self, f: &mut fmt::Formatter<W>) -> fmt::Result {
        let letter = self.0;
        if letter.names() == 0 {
            return f.write_str(" none");
        }
        // Kept: a letter is asked pair by pair, since it holds a mask and some numbers, and no table to go through.
        for pair in 0..64 {
            if let Some(number) = letter.named(pair) {
                write!(f, " {}", Name::of_pair(pair, number))?;
            }
        }
        Ok(())
    }
}

// A body, to be written as digits, or as a hyphen where it is empty.
#[derive(Clone, Copy)]
struct Body<'a>(&'a [u8]);

impl fmt::Display for Body<'_> {
    ghost output = { λ x. Some (body_text x.0.now) };

    fn fmt<W: fmt::Write>(&self, f: &mut fmt::Formatter<W>) -> fmt::Result {
        if self.0.is_empty() {
            return f.write_str("-");
        }
        write!(f, "{}", HexBytes(self.0))
    }
}

// The longest answers find room.
#[cfg(test)]
mod tests {
    use super::*;
    use crate::hex::copy_of;
    use block::{Named, block_of};
    use std::io::Cursor;
    use std::test::Fail;

    #[test]
    fn longest_comment_finds_room(rt: HostRuntime) -> Result<(), Fail> {
        let text = copy_of(&[b'#'; 4096]);
        let comment = Ok(Answer::Same(&text));
        let mut out = Cursor::new([0u8; 5000]);
        write_line(&comment, &mut out)?;
        assert_eq!(rt; out.position(), 4097);
        Ok(())
    }

    #[test]
    fn fullest_letter_finds_room(rt: HostRuntime) -> Result<(), Fail> {
        let name = Name {
            station: 7,
            channel: 7,
            number: 1_000_000,
        };
        let named: Named = [Some(1_000_000); 64];
        let block = block_of(name, &named, &[255; 224])?;
        let mut out = Cursor::new([0u8; 5000]);
        write_line(&Ok(Answer::Written(block)), &mut out)?;
        assert_eq!(rt; out.position(), 1025);
        let mut listed = Cursor::new([0u8; 5000]);
        write_line(&Ok(Answer::Found(Letter::read(&block)?)), &mut listed)?;
        assert_eq!(rt; listed.position(), 1288);
        Ok(())
    }
}
