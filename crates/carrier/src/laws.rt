// What one copy more means, as a promise of a call.
ghost use Rattle.carrier.specs.Bags.{CountsOnce};

// One more copy of a block in a bag counts once, whatever is counted, and all else counts as it did.
#[tactic(auto, using(crate::proofs::Bagging::more_counts))]
pub fn one_copy_more_counts_once()
    ensures { CountsOnce }
{}
