// The carrier's meaning: for each station number a bag of waiting blocks and a limit.
ghost use Rattle.std.specs.Prelude.{◌≡◌, ℕ, length};
ghost use Rattle.carrier.specs.Meaning.{Meaning, Lawful, Puts, Takes};

use crate::faults::CarrierFault;
use block::Block;

// A carrier (transport): moves blocks of 512 bytes to stations, in an order of its choosing.
pub trait Carrier {
    // The blocks that wait for each station number, and how many may.
    ghost meaning: { Self → Meaning };

    // How many blocks wait for a station.
    fn count(&self, station: u8) -> usize
        ensures { result ≡ length ((meaning self.now).bag station) };

    // How many blocks may wait for a station.
    fn limit(&self, station: u8) -> usize
        ensures { result ≡ (meaning self.now).limit station };

    // Adds one copy of a block to a station's bag; refused exactly when its count equals its limit.
    fn put(&mut self, station: u8, block: &Block) -> Result<(), CarrierFault>
        ensures puts { Puts station block.now result (meaning self.old) (meaning self.new) };

    // Moves one of the blocks that wait for a station, whichever, into the caller's bytes; none exactly when none waits.
    fn take(&mut self, station: u8, into: &mut Block) -> Option<()>
        ensures takes { Takes station result into.old into.new (meaning self.old) (meaning self.new) };

    // Limits are 1 to 1,000 for stations 0 to 7 and 0 above, and no bag's count passes its limit.
    ghost lawful: { (c : Self) (station : ℕ) → Lawful station (meaning c) };
}
