// A client of any carrier, proved from the meaning alone.
ghost use Rattle.carrier.specs.PutBack.{PutsBack};

use crate::meaning::Carrier;
use block::Block;

// Takes a block for a station and puts it back, which is never refused: the bag is as before.
#[tactic(auto, using(crate::proofs::Bagging::more_length, crate::proofs::Bagging::same_more))]
pub fn take_and_put_back<C: Carrier>(carrier: &mut C, station: u8, into: &mut Block) -> Option<()>
    ensures { PutsBack station result into.old into.new (C.meaning carrier.old) (C.meaning carrier.new) }
{
    carrier.take(station, into)?;
    carrier.put(station, into).unwrap();
    Some(())
}
