// Runs of records over places that the caller lends, for every kind of record.
#![tactic(auto)]

ghost use Rattle.std.specs.Prelude.{◌≡◌, ◌≤◌, length};
ghost use Rattle.run.specs.Records.{empty_run, records, Adding, Removing, Reading};

// A run (sequence in fixed memory): how many of the places, from the first on, hold a record.
// Where it counts more than there are places, all of them hold one.
// Kept: a count beside lent places, since memory is fixed and the caller's, and a run is over a slice of any element type.
#[derive(Clone, Copy)]
pub struct Run {
    len: usize,
}

// Why a record was not added: each place holds one already.
#[derive(Clone, Copy, PartialEq, Eq, Debug)]
pub struct Full;

impl Run {
    // The run with no record.
    pub const fn new() -> Run
        ensures { result ≡ empty_run }
    {
        Run { len: 0 }
    }

    // How many records there are.
    pub fn length<T>(&self, places: &[T]) -> usize
        ensures value { result ≡ length (records self.now places.now) }
        ensures bound { result ≤ length places.now }
    {
        self.len.min(places.len())
    }

    // The record at a place.
    pub fn get<'a, T>(&self, places: &'a [T], at: usize) -> Option<&'a T>
        ensures { Reading result at (records self.now places.now) }
    {
        places[..self.length(places)].get(at)
    }

    // Adds a record at the end.
    pub fn add<T: Copy>(&mut self, places: &mut [T], record: T) -> Result<(), Full>
        ensures { Adding result «record» self.old self.new places.old places.new }
    {
        let end = self.len;
        // Kept: a test and an index, since no proof knows the elements of a slice that was written through `get_mut`.
        if end >= places.len() {
            return Err(Full);
        }
        places[end] = record;
        self.len = end + 1;
        Ok(())
    }

    // Removes the record at a place; later ones move down by one.
    pub fn remove<T: Copy>(&mut self, places: &mut [T], at: usize) -> Option<T>
        ensures { Removing result at self.old self.new places.old places.new }
    {
        let record = *self.get(places, at)?;
        let count = self.length(places);
        places.copy_within(at + 1..count, at);
        self.len = count - 1;
        Some(record)
    }
}

// Records added and removed, and the refusals.
#[cfg(test)]
mod tests {
    use super::*;

    #[test]
    fn records_come_and_go(rt: HostRuntime) {
        let mut places = [0u32; 3];
        let mut run = Run::new();
        assert_eq!(rt; run.add(&mut places, 5), Ok(()));
        assert_eq!(rt; run.add(&mut places, 6), Ok(()));
        assert_eq!(rt; run.add(&mut places, 7), Ok(()));
        assert_eq!(rt; run.add(&mut places, 8), Err(Full));
        assert_eq!(rt; run.remove(&mut places, 0), Some(5));
        assert_eq!(rt; run.remove(&mut places, 2), None);
        assert_eq!(rt; run.length(&places), 2);
        assert_eq!(rt; run.get(&places, 0).copied(), Some(6));
        assert_eq!(rt; run.get(&places, 1).copied(), Some(7));
        assert_eq!(rt; run.get(&places, 2).copied(), None);
        assert_eq!(rt; run.add(&mut places, 9), Ok(()));
        assert_eq!(rt; places, [6, 7, 9]);
    }
}
