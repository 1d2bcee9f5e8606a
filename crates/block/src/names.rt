// Names of letters, and the numbers that a letter names.
ghost use Rattle.std.specs.Prelude.{◌≡◌, Some};
ghost use Rattle.block.specs.Pairs.{of_pair, pair_of};
ghost use Rattle.block.specs.Text.{name_text};

use std::fmt;

// A letter's name (message identifier): its poster, its channel, and its number among the poster's letters there, from 1.
#[derive(Clone, Copy, PartialEq, Eq, Debug)]
pub struct Name {
    pub station: u8,
    pub channel: u8,
    pub number: u32,
}

impl Name {
    // The name of a pair's letter with a number.
    pub fn of_pair(pair: u8, number: u32) -> Name
        ensures value { result ≡ of_pair pair number }
        ensures back { pair_of result ≡ pair }
    {
        Name {
            station: pair / 8,
            channel: pair % 8,
            number,
        }
    }

    // The pair of the letter: one station on one channel.
    pub fn pair(&self) -> usize
        ensures { result ≡ pair_of self.now }
    {
        8 * usize::from(self.station) + usize::from(self.channel)
    }
}

// The numbers that a letter names (its dependencies), by pair.
pub type Named = [Option<u32>; 64];

// station.channel.number
impl fmt::Display for Name {
    ghost output = { λ n. Some (name_text n) };

    fn fmt<W: fmt::Write>(&self, f: &mut fmt::Formatter<W>) -> fmt::Result {
        let Name {
            station,
            channel,
            number,
        } = *self;
        write!(f, "{station}.{channel}.{number}")
    }
}
