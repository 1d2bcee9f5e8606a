// The turns of a tray: the newest block and the oldest.
ghost use Rattle.std.specs.Prelude.{◌≡◌};
ghost use Rattle.places.specs.Turns.{other, place_of};

// Which of a station's blocks the next take hands over.
#[derive(Clone, Copy)]
pub(crate) enum Turn {
    Newest,
    Oldest,
}

impl Turn {
    // The place of its block among so many, listed from the oldest to the newest; 0 among none.
    pub(crate) fn place(self, count: usize) -> usize
        ensures { result ≡ place_of self count }
    {
        match self {
            Turn::Newest => count.saturating_sub(1),
            Turn::Oldest => 0,
        }
    }

    // The turn after this one.
    pub(crate) fn other(self) -> Turn
        ensures { result ≡ other self }
    {
        match self {
            Turn::Newest => Turn::Oldest,
            Turn::Oldest => Turn::Newest,
        }
    }
}
