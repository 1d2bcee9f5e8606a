// The letters that the program sends, as blocks.
ghost use Rattle.std.specs.Prelude.{◌≡◌, [], replicate, IfOk, None, Ok};
ghost use Rattle.block.specs.Parts.{parts};
ghost use Rattle.block.specs.Reading.{reading};
ghost use Rattle.block.specs.Writing.{writing};

use block::{Block, BlockFault, Name, block_of};

// The name of the program's letter with a number.
pub fn name(number: u32) -> Name
    ensures { result ≡ record { station = 1; channel = 0; number = number } }
{
    Name {
        station: 1,
        channel: 0,
        number,
    }
}

// The block of the letter 1.0.number, which names none and has no body.
pub fn letter(number: u32) -> Result<Block, BlockFault>
    ensures value { result ≡ writing 512 (parts (record { station = 1; channel = 0; number = number }) (replicate 64 None) []) }
    ensures back { IfOk result (λ block. reading block ≡ Ok (parts (record { station = 1; channel = 0; number = number }) (replicate 64 None) [])) }
{
    block_of(name(number), &[None; 64], &[])
}
