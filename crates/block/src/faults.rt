// The faults of reading and writing a block, each with its number and its byte place.
ghost use Rattle.std.specs.Prelude.{◌≡◌, Some};
ghost use Rattle.block.specs.Faults.{number_of, place_of};
ghost use Rattle.block.specs.Text.{fault_text};

use std::error::Error;
use std::fmt;

// Why a block was not read or written. A fault holds the byte place that it tells, where that is not fixed.
#[derive(Clone, Copy, PartialEq, Eq, Debug)]
pub enum BlockFault {
    // not 512 bytes
    Length,
    // the check is not that of the first 508 bytes
    Check,
    // the kind or the edition is not 1
    Kind(usize),
    // a field is out of its range
    Range(usize),
    // a byte should be zero
    NonZero(usize),
}

impl BlockFault {
    // The number of the refusal, 20 to 24.
    pub fn number(&self) -> u8
        ensures { result ≡ number_of self.now }
    {
        match self {
            BlockFault::Length => 20,
            BlockFault::Check => 21,
            BlockFault::Kind(_) => 22,
            BlockFault::Range(_) => 23,
            BlockFault::NonZero(_) => 24,
        }
    }

    // The byte place that the refusal tells.
    pub fn place(&self) -> usize
        ensures { result ≡ place_of self.now }
    {
        match self {
            BlockFault::Length => 0,
            BlockFault::Check => 508,
            BlockFault::Kind(at) | BlockFault::Range(at) | BlockFault::NonZero(at) => *at,
        }
    }
}

// The number and the byte place, in words.
impl fmt::Display for BlockFault {
    ghost output = { λ fault. Some (fault_text fault) };

    fn fmt<W: fmt::Write>(&self, f: &mut fmt::Formatter<W>) -> fmt::Result {
        write!(f, "refused {} at {}", self.number(), self.place())
    }
}

impl Error for BlockFault {}
