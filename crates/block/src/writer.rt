// The writer of a letter's block.
ghost use Rattle.std.specs.Prelude.{◌≡◌, ◌+◌, ◌≤◌, length, Ok, Err, MatchResult, IfOk, OnOk};
ghost use Rattle.std.proofs.Math.Seq.{paste};
ghost use Rattle.block.specs.Numbers.{fit};
ghost use Rattle.block.specs.Mask.{mask_of, present};
ghost use Rattle.block.specs.Parts.{parts};
ghost use Rattle.block.specs.Reading.{head_fits, numbers_fit, reading};
ghost use Rattle.block.specs.Writing.{head, numbers, block_of, writing};

use crate::faults::BlockFault;
use crate::fields::{Block, EDITION, KIND, check_of, head_fits, number_fits};
use crate::masks::Mask;
use crate::names::{Name, Named};

// Writes the letter's block into memory of 512 bytes; a refusal leaves the memory as it was.
// Kept: name, table and body apart, here, in `block_of` and in `lay_letter`; callers hold them apart, a body often in a
// buffer of its own, so a struct of the three would be made for each call just to be taken apart here.
pub fn write(name: Name, named: &Named, body: &[u8], memory: &mut [u8]) -> Result<(), BlockFault>
    ensures value { MatchResult result
        (λ _. writing (length memory.old) (parts name named.now body.now) ≡ Ok memory.new)
        (λ fault. (writing (length memory.old) (parts name named.now body.now) ≡ Err fault) × (memory.new ≡ memory.old)) }
    ensures back { OnOk result (reading memory.new ≡ Ok (parts name named.now body.now)) }
{
    let block: &mut Block = memory.as_mut_array().ok_or(BlockFault::Length)?;
    head_fits(name, body.len())?;
    let table = Table::of(named);
    table.check()?;
    lay_letter(block, name, &table, body);
    Ok(())
}

// The letter's block in memory of its own, or the first fault.
pub fn block_of(name: Name, named: &Named, body: &[u8]) -> Result<Block, BlockFault>
    ensures value { result ≡ writing 512 (parts name named.now body.now) }
    ensures back { IfOk result (λ block. reading block ≡ Ok (parts name named.now body.now)) }
{
    let mut block = [0; 512];
    write(name, named, body, &mut block)?;
    Ok(block)
}

// The numbers that a letter names, by pair, with their mask.
// Kept: its two methods each go through the table; an iterator over places and numbers would be one more struct and impl,
// since no function may answer an `impl Iterator`.
#[derive(Clone, Copy)]
struct Table<'a> {
    named: &'a Named,
    mask: Mask,
    ghost whole: { length named.now ≡ 64 },
    ghost masked: { mask.0 ≡ mask_of named.now 64 },
}

impl<'a> Table<'a> {
    // The table with its mask.
    fn of(named: &'a Named) -> Table<'a>
        ensures { result.named.now ≡ named.now }
    {
        Table {
            named,
            mask: Mask::of(named),
        }
    }

    // Each number is 1 to a million.
    fn check(&self) -> Result<(), BlockFault>
        ensures { result ≡ numbers_fit (present self.now.named.now) 24 }
    {
        for (pair, number) in self.named.iter().enumerate() {
            if let Some(number) = number {
                number_fits(*number, self.mask.place(pair))?;
            }
        }
        Ok(())
    }

    // Copies each number to the place of its pair, after the 24 bytes of the head.
    fn lay(&self, block: &mut Block)
        ensures { block.new ≡ paste block.old 24 (numbers self.now.named.now) (length (numbers self.now.named.now)) }
    {
        for (pair, number) in self.named.iter().enumerate() {
            if let Some(number) = number {
                lay(block, self.mask.place(pair), &number.to_be_bytes());
            }
        }
    }
}

// Writes the block of a letter whose head is in its ranges.
fn lay_letter(block: &mut Block, name: Name, table: &Table<'_>, body: &[u8])
    requires { head_fits name (length body.now) ≡ Ok tt }
    ensures { block.new ≡ block_of (parts name table.now.named.now body.now) }
{
    lay_head(block, name, body.len() as u8, table.mask);
    table.lay(block);
    lay(block, 280, body);
    let check = check_of(block);
    lay(block, 508, &check.to_be_bytes());
}

// Writes zeros but for the first 24 bytes: kind, edition, poster, channel, number, length of the body, mask.
fn lay_head(block: &mut Block, name: Name, len: u8, mask: Mask)
    ensures { block.new ≡ fit 512 (head name len mask.0) }
{
    *block = [0; 512];
    lay(block, 0, &[KIND, EDITION, name.station, name.channel]);
    lay(block, 4, &name.number.to_be_bytes());
    lay(block, 8, &[len]);
    lay(block, 16, &mask.0.to_be_bytes());
}

// Copies a piece to a place.
fn lay(block: &mut Block, at: usize, piece: &[u8])
    requires { at + length piece.now ≤ 512 }
    ensures { block.new ≡ paste block.old at piece.now (length piece.now) }
{
    block[at..at + piece.len()].copy_from_slice(piece);
}
