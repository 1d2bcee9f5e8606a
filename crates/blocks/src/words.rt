// The words of a line, and the numbers that words write.
ghost use Rattle.std.specs.Prelude.{◌≡◌, ◌≤◌, false, length, MatchOption};
ghost use Rattle.blocks.specs.Words.{blank, blanks, ends_word, quoted_after, word_length, word_of, after_word, with_digit, decimal_value};
ghost use Rattle.std.specs.Iterator.{at_most};

use std::marker::Model;

// Whether a byte stands between words: a space or a tab.
pub fn is_blank(byte: u8) -> bool
    ensures { result ≡ blank byte }
{
    matches!(byte, b' ' | b'\t')
}

// How many blanks a text begins with.
fn leading_blanks(text: &[u8]) -> usize
    ensures value { result ≡ blanks text.now }
    ensures bound { result ≤ length text.now }
{
    text.iter().take_while(|byte| is_blank(**byte)).count()
}

// Whether a word ends at a byte: at a blank that does not stand between double quotes.
fn ends_word(byte: u8, quoted: bool) -> bool
    ensures { result ≡ ends_word byte quoted }
{
    is_blank(byte) && !quoted
}

// Whether a double quote is open after a byte.
fn quoted_after(byte: u8, quoted: bool) -> bool
    ensures { result ≡ quoted_after byte quoted }
{
    if byte == b'"' { !quoted } else { quoted }
}

// How long the first word of a text is.
#[tactic(auto, using(crate::proofs::Steps::word_here, crate::proofs::Steps::word_end))]
fn word_length(text: &[u8]) -> usize
    ensures value { result ≡ word_length text.now false }
    ensures bound { result ≤ length text.now }
{
    // Kept: a `scan` whose state is the open quote would have these two steps in its closure, and a `position` and an
    // `unwrap_or` after it, which is no plainer.
    let mut quoted = false;
    for (i, &byte) in text.iter().enumerate() {
        if ends_word(byte, quoted) {
            return i;
        }
        quoted = quoted_after(byte, quoted);
    }
    text.len()
}

// The words of a text, one after the other. Contracts see the text that is left.
#[derive(Drop)]
pub struct Splitter<'a> {
    rest: &'a [u8],
}

impl<'a> Model for Splitter<'a> {
    ghost use Rattle.std.specs.Prelude.{ℕ, List};

    ghost Value = { List ℕ };

    ghost view = { λ words. words.rest.now };
}

impl<'a> Splitter<'a> {
    // The words of a text, from its first on.
    pub fn new(text: &'a [u8]) -> Splitter<'a>
        ensures { result ≡ text.now }
    {
        Splitter { rest: text }
    }
}

impl<'a> Iterator for Splitter<'a> {
    type Item = &'a [u8];

    ghost next_gives = { λ s r t. MatchOption r (length (word_of s) ≡ 0) (λ word. word.now ≡ word_of s) × (t ≡ after_word s) };

    ghost remaining = { λ s. at_most (length s) };

    fn next(&mut self) -> Option<&'a [u8]> {
        let (_, text) = self.rest.split_at(leading_blanks(self.rest));
        let (word, rest) = text.split_at(word_length(text));
        self.rest = rest;
        (!word.is_empty()).then_some(word)
    }
}

// A number with one more digit, or none where the byte is no digit or the number passes 32 bits.
fn with_digit(value: u32, byte: u8) -> Option<u32>
    ensures { result ≡ with_digit value byte }
{
    let digit = char::from(byte).to_digit(10)?;
    value.checked_mul(10)?.checked_add(digit)
}

// The number that a word of decimal digits writes, or none.
#[tactic(auto, using(crate::proofs::Steps::digits_here, crate::proofs::Steps::digits_end))]
pub fn decimal(word: &[u8]) -> Option<u32>
    ensures { result ≡ decimal_value word.now }
{
    if word.is_empty() {
        return None;
    }
    // Kept: by a `try_fold` the proof did not close, and it is no plainer than this `?`; `parse` of a text would take a plus
    // sign too.
    let mut value = 0;
    for &byte in word {
        value = with_digit(value, byte)?;
    }
    Some(value)
}
