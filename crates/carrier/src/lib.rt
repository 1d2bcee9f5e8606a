// Carriers of blocks: their meaning, what any of them can be used for, and the wall, which is made of two.
#![tactic(auto)]

mod faults;
mod laws;
mod meaning;
mod put_back;
mod stations;
mod wall;

pub use faults::CarrierFault;
pub use laws::one_copy_more_counts_once;
pub use meaning::Carrier;
pub use put_back::take_and_put_back;
pub use stations::Stations;
pub use wall::Wall;
