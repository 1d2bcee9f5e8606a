// The reel: 4 places for each station, and the oldest block first.
ghost use Rattle.std.specs.Prelude.{◌≡◌, ℕ, []};

use crate::shares::Shares;
use block::Block;
use carrier::{Carrier, CarrierFault};

// How many places a station has.
const EACH: usize = 4;

// A reel (first-in-first-out transport).
#[derive(Drop)]
pub struct Reel {
    places: [Block; 32],
    shares: Shares,
    ghost four: { shares.each ≡ 4 },
}

impl Reel {
    ghost use Rattle.places.specs.Reels.{reel_waits};

    // The reel with nothing in it.
    pub fn new() -> Reel
        ensures { (station : ℕ) → reel_waits result station ≡ [] }
    {
        Reel {
            places: [[0; 512]; 32],
            shares: Shares::new(EACH),
        }
    }
}

// Kept: count and put are one call of `Shares` each, here and in the tray; to write them once, a trait over both memories,
// an array and a `Vec`, would have to lend the slice, to be read and to be written, which is longer.
impl Carrier for Reel {
    ghost use Rattle.carrier.specs.Meaning.{Puts, Takes};
    ghost use Rattle.places.specs.Lawfulness.{reel_lawful};
    ghost use Rattle.places.specs.Reels.{reel_waits, reel_means};
    ghost use Rattle.places.specs.Shares.{Queued};
    ghost use Rattle.places.specs.Turns.{ByTurn};
    ghost use Rattle.places.specs.declared.turns.Turn.TheVariants.{Oldest};

    ghost meaning = { reel_means };

    ghost lawful = { λ c s. reel_lawful c.shares c.four c.places s };

    fn count(&self, station: u8) -> usize {
        self.shares.length(&self.places, station)
    }

    fn limit(&self, station: u8) -> usize {
        self.shares.limit(station)
    }

    #[tactic(auto, using(crate::proofs::Carrying::queued))]
    fn put(&mut self, station: u8, block: &Block) -> Result<(), CarrierFault>
        ensures puts { Puts station block.now result (reel_means self.old) (reel_means self.new) }
        ensures queued { Queued result block.now (reel_waits self.old station) (reel_waits self.new station) }
    {
        self.shares.each_is(EACH);
        self.shares.add(&mut self.places, station, *block)
    }

    fn take(&mut self, station: u8, into: &mut Block) -> Option<()>
        ensures takes { Takes station result into.old into.new (reel_means self.old) (reel_means self.new) }
        ensures oldest { ByTurn Oldest result into.new (reel_waits self.old station) (reel_waits self.new station) }
    {
        self.shares.each_is(EACH);
        self.shares.take(&mut self.places, station, 0, into)
    }
}
