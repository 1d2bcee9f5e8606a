// Eight runs in one slice of places, each over its station's share.
ghost use Rattle.std.specs.Prelude.{◌≡◌, ℕ, ◌+◌, ◌*◌, ◌≤◌, min, length, ◌≢◌, slice_index_or};

use carrier::CarrierFault;
use run::Run;
use std::ops::Range;

// The runs of stations 0 to 7. Where each has w places, station s has those from w × s on, as far as the places go.
// Kept: the places are lent to each call, as a run's are, since memory is fixed and the reel's, or that of the tray's maker.
#[derive(Clone, Copy)]
pub(crate) struct Shares {
    each: usize,
    runs: [Run; 8],
    ghost some: { 1 ≤ each },
    ghost few: { each ≤ 1000 },
}

impl Shares {
    ghost use Rattle.carrier.specs.Meaning.{put_answer};
    ghost use Rattle.run.specs.Records.{empty_run};
    ghost use Rattle.places.specs.Shares.{share, held, room, Queued, TakenAt};

    // Eight empty runs, for so many places each.
    pub(crate) fn new(each: usize) -> Shares
        requires some { 1 ≤ each }
        requires few { each ≤ 1000 }
        ensures each { result.each ≡ each }
        ensures empty { (station : ℕ) → slice_index_or result.runs station empty_run ≡ empty_run }
    {
        Shares {
            each,
            runs: [Run::new(); 8],
        }
    }

    // Says again how many places each station has; nothing changes. Where it is a constant of the caller's, shares are then
    // worked out as the code is compiled: for a station that is a constant, too, puts and takes on a reel with 3 others took 1.4 to
    // 2 times as long without.
    pub(crate) fn each_is(&mut self, each: usize)
        requires { each ≡ self.old.each }
        ensures { self.new ≡ self.old }
    {
        self.each = each;
    }

    // How many places a station has.
    pub(crate) fn limit(&self, station: u8) -> usize
        ensures { result ≡ room self.now.each station }
    {
        if station < 8 { self.each } else { 0 }
    }

    // The share of a station among so many places.
    fn share(&self, station: u8, total: usize) -> Range<usize>
        ensures start { result.start ≡ min (self.now.each * station) total }
        ensures end { result.end ≡ min (self.now.each * station + self.now.each) total }
    {
        let from = self.each * usize::from(station);
        from.min(total)..(from + self.each).min(total)
    }

    // How many records a station has.
    pub(crate) fn length<T>(&self, places: &[T], station: u8) -> usize
        ensures { result ≡ length (held self.now places.now station) }
    {
        let share = self.share(station, places.len());
        self.runs
            .get(usize::from(station))
            .map_or(0, |run| run.length(&places[share]))
    }

    // Adds a record for a station at the end of its run.
    #[tactic(auto, using(crate::proofs::Sharing::shared))]
    pub(crate) fn add<T: Copy>(
        &mut self,
        places: &mut [T],
        station: u8,
        record: T,
    ) -> Result<(), CarrierFault>
        ensures answer { result ≡ put_answer (length (held self.old places.old station)) (room (length (share self.old.each places.old station)) station) }
        ensures own { Queued result «record» (held self.old places.old station) (held self.new places.new station) }
        ensures others { (other : ℕ) → (other ≢ station) → held self.new places.new other ≡ held self.old places.old other }
        ensures each { self.new.each ≡ self.old.each }
    {
        // Kept: here and in `take` a test for stations above 7 and then an index, since no proof knows the elements of an
        // array that was written through `get_mut`.
        if station > 7 {
            return Err(CarrierFault::Full);
        }
        let share = self.share(station, places.len());
        self.runs[usize::from(station)]
            .add(&mut places[share], record)
            .map_err(|_| CarrierFault::Full)
    }

    // Moves the record at a place of a station's run to the caller; later ones move down by one.
    #[tactic(auto, using(crate::proofs::Sharing::shared))]
    pub(crate) fn take<T: Copy>(
        &mut self,
        places: &mut [T],
        station: u8,
        at: usize,
        into: &mut T,
    ) -> Option<()>
        ensures own { TakenAt result at into.old into.new (held self.old places.old station) (held self.new places.new station) }
        ensures others { (other : ℕ) → (other ≢ station) → held self.new places.new other ≡ held self.old places.old other }
        ensures each { self.new.each ≡ self.old.each }
    {
        if station > 7 {
            return None;
        }
        let share = self.share(station, places.len());
        let part = &mut places[share];
        let run = &mut self.runs[usize::from(station)];
        // Kept: read where it lies and then removed, since by `run.remove` alone a block is copied once more: four million
        // puts and takes on a reel took 125 milliseconds and not 79, at best (rattle-kit-13f).
        *into = *run.get(part, at)?;
        let _ = run.remove(part, at);
        Some(())
    }
}
