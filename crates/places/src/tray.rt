// The tray: the caller's memory, shared out among eight stations.
ghost use Rattle.std.specs.Prelude.{◌≡◌, ℕ, Err, vec_len, IfErr, MatchResult, ◌≢◌};
ghost use Rattle.places.specs.Shares.{eighth};

use crate::shares::Shares;
use crate::turns::Turn;
use block::Block;
use carrier::{Carrier, CarrierFault};

// A tray (transport in the caller's memory): for each station it hands over its newest and its oldest block in turn.
#[derive(Drop)]
pub struct Tray {
    memory: Vec<Block>,
    shares: Shares,
    // Kept: an array beside the runs, since reels share `Shares` and have no turns, and a generic struct may hold no
    // array of its type parameter.
    turns: [Turn; 8],
    ghost eighth: { shares.each ≡ eighth (vec_len memory) },
}

// A memory that is too small for a tray, handed back with the reason.
#[derive(Drop)]
pub struct Unmade {
    pub fault: CarrierFault,
    pub memory: Vec<Block>,
}

impl Tray {
    ghost use Rattle.places.specs.Trays.{memory_of, tray_accepts, TrayMade};

    // Whether a tray can be made of a memory of so many blocks.
    pub fn accepts(blocks: usize) -> Result<(), CarrierFault>
        ensures { result ≡ tray_accepts blocks }
    {
        if blocks < 8 {
            Err(CarrierFault::SmallMemory)
        } else {
            Ok(())
        }
    }

    // Makes a tray of the caller's memory, with nothing in it, or hands the memory back.
    pub fn new(memory: Vec<Block>) -> Result<Tray, Unmade>
        ensures made { MatchResult result (λ tray. TrayMade memory tray) (λ back. tray_accepts (vec_len memory) ≡ Err back.fault) }
        ensures handed_back { IfErr result (λ back. back.memory ≡ memory) }
    {
        // Kept: a match, since either answer moves the memory, which a closure for map_err would take from the other.
        match Tray::accepts(memory.len()) {
            Ok(()) => Ok(Tray {
                shares: Shares::new((memory.len() / 8).min(64)),
                memory,
                turns: [Turn::Newest; 8],
            }),
            Err(fault) => Err(Unmade { fault, memory }),
        }
    }

    // Hands the memory back; what still waited in it is lost to the stations.
    pub fn into_memory(self) -> Vec<Block>
        ensures { result ≡ memory_of self }
    {
        let Tray { memory, .. } = self;
        memory
    }
}

impl Carrier for Tray {
    ghost use Rattle.carrier.specs.Meaning.{Puts, Takes};
    ghost use Rattle.places.specs.Lawfulness.{tray_lawful};
    ghost use Rattle.std.specs.Prelude.{vec_items};
    ghost use Rattle.places.specs.Shares.{Queued};
    ghost use Rattle.places.specs.Trays.{memory_of, tray_waits, tray_means, turn_of};
    ghost use Rattle.places.specs.Turns.{ByTurn, turn_after};

    ghost meaning = { tray_means };

    ghost lawful = { λ c s. tray_lawful (vec_len c.memory) c.shares c.eighth (vec_items c.memory) s };

    fn count(&self, station: u8) -> usize {
        self.shares.length(self.memory.as_slice(), station)
    }

    fn limit(&self, station: u8) -> usize {
        self.shares.limit(station)
    }

    #[tactic(auto, using(crate::proofs::Carrying::queued))]
    fn put(&mut self, station: u8, block: &Block) -> Result<(), CarrierFault>
        ensures puts { Puts station block.now result (tray_means self.old) (tray_means self.new) }
        ensures queued { Queued result block.now (tray_waits self.old station) (tray_waits self.new station) }
        ensures turns { (each : ℕ) → turn_of self.new each ≡ turn_of self.old each }
        ensures memory { vec_len (memory_of self.new) ≡ vec_len (memory_of self.old) }
    {
        self.shares.add(self.memory.as_mut_slice(), station, *block)
    }

    fn take(&mut self, station: u8, into: &mut Block) -> Option<()>
        ensures takes { Takes station result into.old into.new (tray_means self.old) (tray_means self.new) }
        ensures chosen { ByTurn (turn_of self.old station) result into.new (tray_waits self.old station) (tray_waits self.new station) }
        ensures turn { turn_of self.new station ≡ turn_after result (turn_of self.old station) }
        ensures turns { (other : ℕ) → (other ≢ station) → turn_of self.new other ≡ turn_of self.old other }
        ensures memory { vec_len (memory_of self.new) ≡ vec_len (memory_of self.old) }
    {
        let turn = *self.turns.get(usize::from(station))?;
        let at = turn.place(self.count(station));
        self.shares
            .take(self.memory.as_mut_slice(), station, at, into)?;
        self.turns[usize::from(station)] = turn.other();
        Some(())
    }
}
