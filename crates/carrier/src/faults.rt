// The faults of carriers, each with its number and its text.
ghost use Rattle.std.specs.Prelude.{◌≡◌, Some};
ghost use Rattle.carrier.specs.Faults.{number_of, fault_text};

use std::error::Error;
use std::fmt;

// Why a carrier was not made, or a block was not put.
#[derive(Clone, Copy, PartialEq, Eq, Debug)]
pub enum CarrierFault {
    // the memory has fewer than 8 blocks
    SmallMemory = 4,
    // as many blocks wait for the station as may
    Full = 14,
}

impl CarrierFault {
    // The number of the refusal, 4 or 14.
    pub fn number(&self) -> u8
        ensures { result ≡ number_of self.now }
    {
        *self as u8
    }
}

// refused 4, or refused 14
impl fmt::Display for CarrierFault {
    ghost output = { λ fault. Some (fault_text fault) };

    fn fmt<W: fmt::Write>(&self, f: &mut fmt::Formatter<W>) -> fmt::Result {
        let number = self.number();
        write!(f, "refused {number}")
    }
}

impl Error for CarrierFault {}
