// The commands that lines write, and why a line writes none.
ghost use Rattle.std.specs.Prelude.{◌≡◌, ◌<◌, ◌≤◌, ◌↔◌, [], length, IfSome, IfOk, IfErr, IsOk, OnOk, OnErr, Some, None, Ok, Err, MatchResult, slice_index_or, slice_set};
ghost use Rattle.block.specs.Pairs.{pair_of};
ghost use Rattle.block.specs.Parts.{parts};
ghost use Rattle.block.specs.Writing.{writing};
ghost use Rattle.blocks.specs.declared.commands.Misread.TheVariants.{NamedTwice};
ghost use Rattle.blocks.specs.Words.{word_of, after_word};
ghost use Rattle.blocks.specs.Hex.{hex_bytes, ReadsAs};
ghost use Rattle.blocks.specs.Reasons.{reason_text};
ghost use Rattle.blocks.specs.Commands.{long_number, short_number, text_in, body_in, name_in, AllNamed, Drafted, Asked};

use crate::hex::{Bytes, copy_of, from_hex};
use crate::words::{Splitter, decimal};
use block::{Block, BlockFault, Name, Named, block_of};
use std::fmt;

// Why a line is not understood.
#[derive(Clone, Copy, PartialEq, Eq, Debug)]
pub enum Misread {
    EmptyLine,
    LongLine,
    NoCommand,
    BadDigit,
    OddDigits,
    FewWords,
    BadNumber,
    BadBody,
    BadName,
    NamedTwice,
}

// The reason in words.
impl fmt::Display for Misread {
    ghost output = { λ reason. Some (reason_text reason) };

    fn fmt<W: fmt::Write>(&self, f: &mut fmt::Formatter<W>) -> fmt::Result {
        f.write_str(match self {
            Misread::EmptyLine => "empty line",
            Misread::LongLine => "line over 4096 bytes",
            Misread::NoCommand => "no such command",
            Misread::BadDigit => "bad digit",
            Misread::OddDigits => "odd count of digits",
            Misread::FewWords => "too few words",
            Misread::BadNumber => "bad number",
            Misread::BadBody => "bad body",
            Misread::BadName => "bad name",
            Misread::NamedTwice => "pair named twice",
        })
    }
}

// A letter to be written, whose parts may be out of their ranges.
#[derive(Drop)]
pub struct Draft {
    name: Name,
    named: Named,
    body: Bytes,
}

// What a line asks for.
#[derive(Drop)]
pub enum Command<'a> {
    // the line again
    Comment(&'a [u8]),
    // the block of a letter
    Write(Draft),
    // the letter of a block
    Read(Bytes),
}

impl<'a> Command<'a> {
    // The command of a line without its end.
    // Kept: `parse` names what is done with the bytes; a `try_from` would have the same body, and its clause as a ghost member.
    // The same holds of `Draft::parse`, and `name_of` answers a type of another crate, for which no impl may stand here.
    pub fn parse(line: &'a [u8]) -> Result<Command<'a>, Misread>
        ensures { IfOk result (λ command. Asked line.now command) }
    {
        match line {
            [] => Err(Misread::EmptyLine),
            [b'#', ..] => Ok(Command::Comment(line)),
            [b'W'] => Err(Misread::FewWords),
            [b'W', b' ' | b'\t', words @ ..] => Ok(Command::Write(Draft::parse(words)?)),
            [b' ' | b'\t' | b'0'..=b'9' | b'A'..=b'F' | b'a'..=b'f', ..] => {
                Ok(Command::Read(block_digits(line)?))
            }
            _ => Err(Misread::NoCommand),
        }
    }
}

impl Draft {
    // The letter of the words after W: station, channel, number, body, and the names.
    fn parse(text: &[u8]) -> Result<Draft, Misread>
        ensures { IfOk result (λ draft. Drafted text.now draft) }
    {
        let mut words = Splitter::new(text);
        let station = short_number(required(&mut words)?)?;
        let channel = short_number(required(&mut words)?)?;
        let number = long_number(required(&mut words)?)?;
        let body = body_of(required(&mut words)?)?;
        let named = named_of(words)?;
        let name = Name {
            station,
            channel,
            number,
        };
        Ok(Draft { name, named, body })
    }

    // The letter's block, or why it has none.
    pub fn block(&self) -> Result<Block, BlockFault>
        ensures { result ≡ writing 512 (parts self.now.name self.now.named self.now.body.items) }
    {
        block_of(self.name, &self.named, &self.body)
    }
}

// The bytes that a line of digits writes, of which there is one or more.
fn block_digits(line: &[u8]) -> Result<Bytes, Misread>
    ensures { IfOk result (λ bytes. hex_bytes line.now [] None ≡ Ok bytes.items) }
{
    let bytes = from_hex(line)?;
    if bytes.is_empty() {
        return Err(Misread::EmptyLine);
    }
    Ok(bytes)
}

// The next word, which has to be there.
fn required<'a>(words: &mut Splitter<'a>) -> Result<&'a [u8], Misread>
    ensures value { IfOk result (λ word. word.now ≡ word_of words.old) }
    ensures rest { words.new ≡ after_word words.old }
{
    words.next().ok_or(Misread::FewWords)
}

// The number that a word writes.
fn long_number(word: &[u8]) -> Result<u32, Misread>
    ensures { result ≡ long_number word.now }
{
    decimal(word).ok_or(Misread::BadNumber)
}

// The number of one byte that a word writes.
fn short_number(word: &[u8]) -> Result<u8, Misread>
    ensures { result ≡ short_number word.now }
{
    u8::try_from(long_number(word)?).map_err(|_| Misread::BadNumber)
}

// The body that a word writes: none, a text between double quotes, or the bytes of hexadecimal digits.
fn body_of(word: &[u8]) -> Result<Bytes, Misread>
    ensures { length word.now ≤ 4096 → ReadsAs result (body_in word.now) }
{
    match word {
        [b'-'] => Ok(Bytes::new()),
        [b'"', rest @ ..] => text_of(rest),
        _ => from_hex(word).map_err(|reason| match reason {
            Misread::BadDigit => Misread::BadBody,
            _ => reason,
        }),
    }
}

// The text before a double quote, which has to end the word and to be the only one.
fn text_of(rest: &[u8]) -> Result<Bytes, Misread>
    ensures { length rest.now ≤ 4096 → ReadsAs result (text_in rest.now) }
{
    match rest {
        [text @ .., b'"'] if !text.contains(&b'"') => Ok(copy_of(text)),
        _ => Err(Misread::BadBody),
    }
}

// The named numbers of the words that are left, by pair.
fn named_of(words: Splitter<'_>) -> Result<Named, Misread>
    ensures { IfOk result (λ named. AllNamed words.entry named) }
{
    let mut named: Named = [None; 64];
    for word in words {
        let name = name_of(word).ok_or(Misread::BadName)?;
        put_name(&mut named, name)?;
    }
    Ok(named)
}

// Enters a name's number at its pair, which no other name has taken.
fn put_name(named: &mut Named, name: Name) -> Result<(), Misread>
    requires station { name.station < 8 }
    requires channel { name.channel < 8 }
    ensures free { IsOk result ↔ (slice_index_or named.old (pair_of name) None ≡ None) }
    ensures entered { OnOk result (named.new ≡ slice_set named.old (pair_of name) (Some name.number)) }
    ensures twice { IfErr result (λ reason. reason ≡ NamedTwice) }
    ensures kept { OnErr result (named.new ≡ named.old) }
{
    let pair = name.pair();
    if named[pair].is_some() {
        return Err(Misread::NamedTwice);
    }
    named[pair] = Some(name.number);
    Ok(())
}

// The name that a word writes: a digit below 8, a full stop, a digit below 8, a full stop, and a number.
fn name_of(word: &[u8]) -> Option<Name>
    ensures value { result ≡ name_in word.now }
    ensures bound { IfSome result (λ name. (name.station < 8) × (name.channel < 8)) }
{
    match word {
        [s @ b'0'..=b'7', b'.', c @ b'0'..=b'7', b'.', digits @ ..] => {
            let number = decimal(digits)?;
            // Kept: the pattern has made sure of both digits, of which `to_digit` would answer an option once more.
            Some(Name {
                station: *s - b'0',
                channel: *c - b'0',
                number,
            })
        }
        _ => None,
    }
}
