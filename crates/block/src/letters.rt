// A letter read from a block, and the questions for its parts.
ghost use Rattle.std.specs.Prelude.{◌≡◌, ◌≤◌, true, length, is_ok, IfOk, None, Ok, Err, MatchResult, OnOk, slice_index, slice_index_or};
ghost use Rattle.block.specs.Mask.{mask_of, present};
ghost use Rattle.block.specs.Sum.{weighted};
ghost use Rattle.block.specs.Parts.{parts_of, name_of};
ghost use Rattle.block.specs.Reading.{framed, ranged, cleared, reading};
ghost use Rattle.block.specs.Writing.{front, block_of, writing};

use crate::faults::BlockFault;
use crate::fields::{Block, EDITION, KIND, check_numbers, check_of, head_fits, number_at, zeros};
use crate::masks::Mask;
use crate::names::Name;

// A letter (message): a block that was read without a fault. Contracts speak of the bytes that it holds and of its parts.
// Kept: ghost fields and no model; if the letter had one, a variable of a `Copy` struct that holds a letter could not be
// passed by value twice, and whoever has a letter would know its parts' ranges only by asking for its block, too.
#[derive(Clone, Copy)]
pub struct Letter {
    block: Block,
    ghost readable: { is_ok (reading block) ≡ true },
    ghost short: { slice_index block 8 ≤ 224 },
    ghost again: { block_of (parts_of block) ≡ block },
}

impl Letter {
    ghost use Rattle.block.specs.Letters.{bytes_of, said_by};

    // The letter that the bytes say, or the first fault.
    pub fn read(bytes: &[u8]) -> Result<Letter, BlockFault>
        ensures value { MatchResult result
            (λ letter. (bytes_of letter ≡ bytes.now) × (reading bytes.now ≡ Ok (said_by letter)))
            (λ fault. reading bytes.now ≡ Err fault) }
        ensures again { IfOk result (λ letter. writing 512 (said_by letter) ≡ Ok bytes.now) }
    {
        let block: &Block = bytes.as_array().ok_or(BlockFault::Length)?;
        check_frame(block)?;
        check_ranges(block)?;
        check_zeros(block)?;
        Ok(Letter { block: *block })
    }

    // The letter's name.
    pub fn name(&self) -> Name
        ensures { result ≡ (said_by self.now).name }
    {
        name_at(&self.block)
    }

    // The number that the letter names of a pair, or none.
    pub fn named(&self, pair: u8) -> Option<u32>
        ensures { result ≡ slice_index_or (said_by self.now).named pair None }
    {
        let mask = Mask::read(&self.block);
        let pair = usize::from(pair);
        // Kept: an `if`; by `then` its three cases are one goal, which was left open.
        if pair < 64 && mask.names(pair) {
            Some(number_at(&self.block, mask.place(pair)))
        } else {
            None
        }
    }

    // How many letters it names.
    pub fn names(&self) -> u32
        ensures { result ≡ length (present (said_by self.now).named) }
    {
        Mask::read(&self.block).count()
    }

    // The body.
    pub fn body(&self) -> &[u8]
        ensures body { result.now ≡ (said_by self.now).body }
        ensures short { length result.now ≤ 224 }
    {
        &self.block[280..280 + usize::from(self.block[8])]
    }

    // The mask of the pairs that it names.
    pub fn mask(&self) -> u64
        ensures { result ≡ mask_of (said_by self.now).named 64 }
    {
        Mask::read(&self.block).0
    }

    // The check of its block.
    pub fn check(&self) -> u32
        ensures { result ≡ weighted (front (said_by self.now)) 508 }
    {
        number_at(&self.block, 508)
    }

    // The block that the letter was read from, which reads as the letter again.
    pub fn block(&self) -> &Block
        ensures bytes { result.now ≡ bytes_of self.now }
        ensures value { result.now ≡ block_of (said_by self.now) }
        ensures again { reading result.now ≡ Ok (said_by self.now) }
    {
        &self.block
    }
}

// The name in bytes 2 to 7.
fn name_at(block: &Block) -> Name
    ensures { result ≡ name_of block.now }
{
    Name {
        station: block[2],
        channel: block[3],
        number: number_at(block, 4),
    }
}

// Check, kind and edition.
fn check_frame(block: &Block) -> Result<(), BlockFault>
    ensures { result ≡ framed block.now }
{
    if number_at(block, 508) != check_of(block) {
        return Err(BlockFault::Check);
    }
    if block[0] != KIND {
        return Err(BlockFault::Kind(0));
    }
    if block[1] != EDITION {
        return Err(BlockFault::Kind(1));
    }
    Ok(())
}

// Each field in its range.
fn check_ranges(block: &Block) -> Result<(), BlockFault>
    ensures value { result ≡ ranged block.now }
    ensures short { OnOk result (slice_index block.now 8 ≤ 224) }
{
    head_fits(name_at(block), usize::from(block[8]))?;
    check_numbers(block, Mask::read(block).end())
}

// Each byte that should be zero.
fn check_zeros(block: &Block) -> Result<(), BlockFault>
    requires { slice_index block.now 8 ≤ 224 }
    ensures { result ≡ cleared block.now }
{
    zeros(block, 9..16)?;
    zeros(block, Mask::read(block).end()..280)?;
    zeros(block, 280 + usize::from(block[8])..508)
}
