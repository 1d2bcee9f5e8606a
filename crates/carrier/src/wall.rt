// The wall: two carriers, each for its own stations.
ghost use Rattle.std.specs.Prelude.{◌≡◌, ℕ, []};
ghost use Rattle.carrier.specs.Meaning.{Puts, Takes};
ghost use Rattle.carrier.specs.Walls.{sides_of, set_of, wall_means, OtherSideKept};
ghost use Rattle.std.proofs.Common.{rules};

use crate::faults::CarrierFault;
use crate::meaning::Carrier;
use crate::stations::Stations;
use block::Block;

// A wall (partitioned transport): the stations of a set use the first carrier, all other numbers the second.
#[derive(Drop)]
pub struct Wall<A, B> {
    first: A,
    second: B,
    of_first: Stations,
}

impl<A: Carrier, B: Carrier> Wall<A, B> {
    // The wall of two carriers, with what waits in them.
    pub fn new(first: A, second: B, of_first: Stations) -> Wall<A, B>
        ensures sides { sides_of result ≡ (first, second) }
        ensures set { set_of result ≡ of_first }
        ensures empty { (station : ℕ) → (A.meaning first).bag station ≡ []
            → (B.meaning second).bag station ≡ []
            → (wall_means result A.meaning B.meaning).bag station ≡ [] }
    {
        Wall {
            first,
            second,
            of_first,
        }
    }

    // Hands back the two carriers.
    pub fn into_sides(self) -> (A, B)
        ensures { result ≡ sides_of self }
    {
        (self.first, self.second)
    }
}

// Kept: each call chooses its side by an `if`; a function that lends the side would hand out a dyn value, which `rt ci`
// refuses, or an enum of both, in which each call would choose again.
impl<A: Carrier, B: Carrier> Carrier for Wall<A, B> {
    ghost meaning = { λ c. wall_means c A.meaning B.meaning };

    ghost lawful = { Prim.search rules };

    fn count(&self, station: u8) -> usize {
        if self.of_first.contains(station) {
            self.first.count(station)
        } else {
            self.second.count(station)
        }
    }

    fn limit(&self, station: u8) -> usize {
        if self.of_first.contains(station) {
            self.first.limit(station)
        } else {
            self.second.limit(station)
        }
    }

    fn put(&mut self, station: u8, block: &Block) -> Result<(), CarrierFault>
        ensures puts { Puts station block.now result
            (wall_means self.old A.meaning B.meaning) (wall_means self.new A.meaning B.meaning) }
        ensures kept { OtherSideKept station self.old self.new }
    {
        if self.of_first.contains(station) {
            self.first.put(station, block)
        } else {
            self.second.put(station, block)
        }
    }

    fn take(&mut self, station: u8, into: &mut Block) -> Option<()>
        ensures takes { Takes station result into.old into.new
            (wall_means self.old A.meaning B.meaning) (wall_means self.new A.meaning B.meaning) }
        ensures kept { OtherSideKept station self.old self.new }
    {
        if self.of_first.contains(station) {
            self.first.take(station, into)
        } else {
            self.second.take(station, into)
        }
    }
}
