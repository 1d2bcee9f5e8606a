// Hexadecimal digits: their values, the bytes that they write, and the text of bytes.
ghost use Rattle.std.specs.Prelude.{◌≡◌, ◌<◌, [], take, IfSome, Some, None, Ok, Err, MatchResult};
ghost use Rattle.std.specs.List.{flat_map};
ghost use Rattle.blocks.specs.Hex.{hex_value, hex_digit, hex_text, pushed, hex_bytes, ReadsAs};

use crate::commands::Misread;
use crate::lines::LONGEST_LINE;
use crate::words::is_blank;
use arrayvec::ArrayVec;
use std::fmt;

// Bytes in a buffer of their own, as many as the longest line has.
pub type Bytes = ArrayVec<u8, LONGEST_LINE>;

// One more byte, if there is room.
// Kept: what finds no room is dropped, which the digits of no line come to; an error would be a refusal that is never met.
fn push(bytes: &mut Bytes, byte: u8)
    ensures { bytes.new.items ≡ pushed bytes.old.items byte }
{
    let _full = bytes.try_push(byte);
}

// The bytes of a text, as many as there is room for.
pub fn copy_of(text: &[u8]) -> Bytes
    ensures { result.items ≡ take 4096 text.now }
{
    let mut bytes = Bytes::new();
    let count = text.len().min(bytes.capacity());
    let _fits = bytes.try_extend_from_slice(&text[..count]);
    bytes
}

// The bytes that hexadecimal digits write, two for each byte; blanks between them are passed over.
#[tactic(auto, using(crate::proofs::Steps::hex_here, crate::proofs::Steps::hex_end))]
pub fn from_hex(text: &[u8]) -> Result<Bytes, Misread>
    ensures { ReadsAs result (hex_bytes text.now [] None) }
{
    let mut bytes = Bytes::new();
    // Kept: a digit waits for its second; to take two at a time from an iterator is a `while let` by hand with a second `next`
    // in it, which is no plainer.
    let mut high = None;
    for &byte in text {
        if is_blank(byte) {
            continue;
        }
        let digit = hex_value(byte).ok_or(Misread::BadDigit)?;
        match high.take() {
            None => high = Some(digit),
            Some(first) => push(&mut bytes, (16 * first + digit) as u8),
        }
    }
    match high {
        None => Ok(bytes),
        Some(_) => Err(Misread::OddDigits),
    }
}

// The value of a hexadecimal digit of either case, or none.
pub fn hex_value(byte: u8) -> Option<u32>
    ensures value { result ≡ hex_value byte }
    ensures bound { IfSome result (λ digit. digit < 16) }
{
    char::from(byte).to_digit(16)
}

// The digit of a value below 16, in lower case.
fn hex_digit(value: u8) -> u8
    requires { value < 16 }
    ensures value { result ≡ hex_digit value }
    ensures ascii { result < 128 }
{
    if value < 10 {
        b'0' + value
    } else {
        b'a' + (value - 10)
    }
}

// Bytes, to be written as two digits each.
#[derive(Clone, Copy)]
pub struct HexBytes<'a>(pub &'a [u8]);

impl fmt::Display for HexBytes<'_> {
    ghost output = { λ x. Some (flat_map hex_text x.0.now) };

    fn fmt<W: fmt::Write>(&self, f: &mut fmt::Formatter<W>) -> fmt::Result {
        // Kept: digit by digit; by `{byte:02x}` a line that writes a block, whose bytes are mostly zeros, took 1.04 to 1.7 times as long.
        for &byte in self.0 {
            f.write_char(char::from(hex_digit(byte / 16)))?;
            f.write_char(char::from(hex_digit(byte % 16)))?;
        }
        Ok(())
    }
}
