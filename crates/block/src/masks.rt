// The mask of the named pairs, and the places of their numbers.
ghost use Rattle.std.specs.Prelude.{◌≡◌, ◌+◌, ◌*◌, ◌<◌, ◌≤◌, ◌==◌};
ghost use Rattle.block.specs.Numbers.{wide};
ghost use Rattle.block.specs.Mask.{bit, below, mask_of};

use crate::fields::{Block, bytes_at};
use crate::names::Named;

// Which pairs are named: bit k of the number is set where pair k is.
// Kept: contracts name its number as `.0`; a model would put a view and its inverse round one number.
#[derive(Clone, Copy)]
pub(crate) struct Mask(pub(crate) u64);

impl Mask {
    // The mask of the pairs that have a number.
    pub(crate) fn of(named: &Named) -> Mask
        ensures { result.0 ≡ mask_of named.now 64 }
    {
        // Kept: bit by bit; of a chain that ends in `sum` it was not proved that the sum of the bits fits.
        let mut mask: u64 = 0;
        for (k, number) in named.iter().enumerate() {
            if number.is_some() {
                mask += 1 << k;
            }
        }
        Mask(mask)
    }

    // The mask of a block, in the 8 bytes from byte 16.
    pub(crate) fn read(block: &Block) -> Mask
        ensures { result.0 ≡ wide 8 block.now 16 }
    {
        Mask(u64::from_be_bytes(bytes_at(block, 16)))
    }

    // Whether it names the pair.
    pub(crate) fn names(self, pair: usize) -> bool
        requires { pair < 64 }
        ensures { result ≡ (bit self.0 pair == 1) }
    {
        (self.0 >> pair) & 1 == 1
    }

    // The byte where the number of a named pair begins: after the head's 24, and 4 for each set bit below the pair's own.
    pub(crate) fn place(self, pair: usize) -> usize
        requires { pair < 64 }
        ensures value { result ≡ 24 + 4 * below self.0 pair }
        ensures bound { result ≤ 24 + 4 * pair }
    {
        24 + 4 * (self.0 & ((1 << pair) - 1)).count_ones() as usize
    }

    // How many pairs it names.
    pub(crate) fn count(self) -> u32
        ensures value { result ≡ below self.0 64 }
        ensures bound { result ≤ 64 }
    {
        self.0.count_ones()
    }

    // The byte after the named numbers.
    pub(crate) fn end(self) -> usize
        ensures value { result ≡ 24 + 4 * below self.0 64 }
        ensures bound { result ≤ 280 }
    {
        24 + 4 * self.count() as usize
    }
}
