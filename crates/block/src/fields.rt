// The fields of a block: numbers of several bytes, the check, ranges, and bytes that should be zero.
ghost use Rattle.std.specs.Prelude.{◌≡◌, ◌+◌, ◌-◌, ◌/◌, ◌%◌, ◌≤◌, length, sum};
ghost use Rattle.std.specs.List.{between};
ghost use Rattle.block.specs.Numbers.{wide};
ghost use Rattle.block.specs.Sum.{weighted};
ghost use Rattle.block.specs.Reading.{in_range, head_fits, numbers_fit, numbers_from, zeros_in};

use crate::faults::BlockFault;
use crate::names::Name;
use std::ops::Range;

// A block (fixed-size frame): 512 bytes, whatever they say.
pub type Block = [u8; 512];

// The kind of every block, in byte 0.
pub(crate) const KIND: u8 = 1;
// The edition of every block, in byte 1.
pub(crate) const EDITION: u8 = 1;
// The largest number of a letter on its channel.
pub(crate) const LAST_NUMBER: usize = 1_000_000;
// The longest body, in bytes.
pub(crate) const LONGEST_BODY: usize = 224;

// The N bytes from a place.
pub(crate) fn bytes_at<const N: usize>(block: &Block, at: usize) -> [u8; N]
    requires { at + N ≤ 512 }
    ensures { result ≡ between at (at + N) block.now }
{
    *block[at..at + N].as_array().unwrap()
}

// The number in 4 bytes from a place.
pub(crate) fn number_at(block: &Block, at: usize) -> u32
    requires { at + 4 ≤ 512 }
    ensures { result ≡ wide 4 block.now at }
{
    u32::from_be_bytes(bytes_at(block, at))
}

// The check of the first 508 bytes: the sum of each byte's value times its place counted from one.
// Kept: an indexed loop over the first 508 bytes, a rule of the project.
pub(crate) fn check_of(block: &Block) -> u32
    ensures { result ≡ weighted block.now 508 }
{
    let mut sum: u32 = 0;
    for i in 0..508usize {
        sum += u32::from(block[i]) * (i as u32 + 1);
    }
    sum
}

// The value of the field at a place lies from low to high.
pub(crate) fn in_range(low: usize, high: usize, value: usize, at: usize) -> Result<(), BlockFault>
    ensures { result ≡ in_range low high value at }
{
    if (low..=high).contains(&value) {
        Ok(())
    } else {
        Err(BlockFault::Range(at))
    }
}

// The named number at a place is 1 to a million.
pub(crate) fn number_fits(number: u32, at: usize) -> Result<(), BlockFault>
    ensures { result ≡ in_range 1 1000000 number at }
{
    in_range(1, LAST_NUMBER, number as usize, at)
}

// Poster, channel, number and length of the body are in their ranges.
pub(crate) fn head_fits(name: Name, len: usize) -> Result<(), BlockFault>
    ensures { result ≡ head_fits name len }
{
    in_range(0, 7, usize::from(name.station), 2)?;
    in_range(0, 7, usize::from(name.channel), 3)?;
    number_fits(name.number, 4)?;
    in_range(0, LONGEST_BODY, len, 8)
}

// The sum of some bytes, which tells whether all are zero.
// Kept: added up before one is looked for, since a sum takes many bytes at a time: 491 zeros took 80 nanoseconds and not
// the 386 of `position`, 11 took 4 and not 3 (rattle-kit-13f).
fn total(bytes: &[u8]) -> u32
    requires { length bytes.now ≤ 512 }
    ensures { result ≡ sum bytes.now }
{
    bytes.iter().map(|b| u32::from(*b)).sum()
}

// The bytes in a range are zero.
pub(crate) fn zeros(block: &Block, places: Range<usize>) -> Result<(), BlockFault>
    requires within { places.end ≤ 512 }
    requires ordered { places.start ≤ places.end }
    ensures { result ≡ zeros_in block.now places.start (places.end - places.start) }
{
    let from = places.start;
    let bytes = &block[places];
    if total(bytes) == 0 {
        return Ok(());
    }
    match bytes.iter().position(|b| *b != 0) {
        Some(i) => Err(BlockFault::NonZero(from + i)),
        None => Ok(()),
    }
}

// The numbers of 4 bytes from byte 24 up to a place are 1 to a million.
pub(crate) fn check_numbers(block: &Block, end: usize) -> Result<(), BlockFault>
    requires within { end ≤ 280 }
    requires whole { end % 4 ≡ 0 }
    ensures { result ≡ numbers_fit (numbers_from block.now 24 ((end - 24) / 4)) 24 }
{
    for at in (24..end).step_by(4) {
        number_fits(number_at(block, at), at)?;
    }
    Ok(())
}
