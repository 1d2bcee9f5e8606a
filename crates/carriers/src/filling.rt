// Fills and empties the bag of one station of any carrier, and lists each step.
ghost use Rattle.carriers.specs.Filling.{OnlyFor, FullFor, NoneFor};
ghost use Rattle.std.specs.Prelude.{OnOk};

use crate::letters::{letter, name};
use block::{Block, Letter};
use carrier::{Carrier, take_and_put_back};

// A trial of a carrier's station, and where each step is listed.
// Kept: each call is lent the carrier; of one that a trial borrowed, its owner would not know what the trial left in it.
#[derive(Clone, Copy)]
pub struct Trial<'a> {
    pub rt: &'a HostRuntime,
    pub station: u8,
}

impl Trial<'_> {
    // Fills the station's bag and empties it, twice; before the second emptying one block is taken and put back.
    pub fn fill_twice<C: Carrier>(&self, carrier: &mut C) -> anyhow::Result<()>
        ensures none { OnOk result (NoneFor self.now.station (C.meaning carrier.new)) }
        ensures only { OnlyFor self.now.station (C.meaning carrier.old) (C.meaning carrier.new) }
    {
        let station = self.station;
        let limit = carrier.limit(station);
        println!(self.rt; "station {station}: {limit} may wait")?;
        self.fill(carrier, 1)?;
        self.empty(carrier)?;
        self.fill(carrier, 11)?;
        self.put_back(carrier)?;
        self.empty(carrier)
    }

    // Puts letters for the station, numbered from a number on, until one is refused: then as many wait as may.
    #[tactic(auto, using(carrier::proofs::Bagging::more_length))]
    pub fn fill<C: Carrier>(&self, carrier: &mut C, first: u32) -> anyhow::Result<()>
        ensures full { OnOk result (FullFor self.now.station (C.meaning carrier.new)) }
        ensures only { OnlyFor self.now.station (C.meaning carrier.old) (C.meaning carrier.new) }
    {
        let station = self.station;
        // Kept: a `for number in first..` ends at the largest number and wants an answer after it, which is never met,
        // since `letter` refuses numbers above a million.
        let mut number = first;
        loop {
            let name = name(number);
            let block = letter(number)?;
            if let Err(fault) = carrier.put(station, &block) {
                println!(self.rt; "station {station}: put {name}: {fault}")?;
                return Ok(());
            }
            let count = carrier.count(station);
            println!(self.rt; "station {station}: put {name}: {count} waiting")?;
            number = number.saturating_add(1);
        }
    }

    // Takes blocks for the station until there is none.
    #[tactic(auto, using(carrier::proofs::Bagging::more_length))]
    pub fn empty<C: Carrier>(&self, carrier: &mut C) -> anyhow::Result<()>
        ensures none { OnOk result (NoneFor self.now.station (C.meaning carrier.new)) }
        ensures only { OnlyFor self.now.station (C.meaning carrier.old) (C.meaning carrier.new) }
    {
        let station = self.station;
        let mut block = [0; 512];
        while let Some(()) = carrier.take(station, &mut block) {
            self.list("took", &block, carrier.count(station))?;
        }
        self.list_none()
    }

    // Takes a block for the station and puts it back.
    pub fn put_back<C: Carrier>(&self, carrier: &mut C) -> anyhow::Result<()>
        ensures { OnlyFor self.now.station (C.meaning carrier.old) (C.meaning carrier.new) }
    {
        let station = self.station;
        let mut block = [0; 512];
        match take_and_put_back(carrier, station, &mut block) {
            Some(()) => self.list("took and put back", &block, carrier.count(station)),
            None => self.list_none(),
        }
    }

    // Lists what was done with a block, by its letter's name, and how many wait then.
    fn list(&self, done: &str, block: &Block, count: usize) -> anyhow::Result<()> {
        let station = self.station;
        match Letter::read(block) {
            Ok(letter) => {
                let name = letter.name();
                println!(self.rt; "station {station}: {done} {name}: {count} waiting")?;
            }
            Err(fault) => {
                let number = fault.number();
                println!(self.rt;
                    "station {station}: {done} a block of fault {number}: {count} waiting"
                )?;
            }
        }
        Ok(())
    }

    // Lists that no block was there to be taken.
    fn list_none(&self) -> anyhow::Result<()> {
        let station = self.station;
        println!(self.rt; "station {station}: took none")?;
        Ok(())
    }
}
