// Sets of stations.
ghost use Rattle.std.specs.Prelude.{◌≡◌};
ghost use Rattle.carrier.specs.Stations.{member};

// A set of stations from 0 to 7.
#[derive(Clone, Copy)]
pub struct Stations {
    pub has: [bool; 8],
}

impl Stations {
    // Whether a station is in the set; no number above 7 is.
    pub fn contains(&self, station: u8) -> bool
        ensures { result ≡ member self.now station }
    {
        self.has.get(usize::from(station)).copied().unwrap_or(false)
    }
}
