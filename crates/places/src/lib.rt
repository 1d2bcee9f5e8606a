// Carriers with places of their own: the tray in the caller's memory, and the reel.
#![tactic(auto)]

mod reel;
mod shares;
mod tray;
mod turns;

pub use reel::Reel;
pub use tray::{Tray, Unmade};

// The tray's places by its memory, and station numbers at the edge.
#[cfg(test)]
mod tests {
    use super::*;
    use carrier::{Carrier, CarrierFault, Stations, Wall};
    use std::test::Fail;

    #[test]
    fn trays_by_memory(rt: HostRuntime) -> Result<(), Fail> {
        let table = [
            (7, None),
            (8, Some(1)),
            (15, Some(1)),
            (16, Some(2)),
            (511, Some(63)),
            (512, Some(64)),
            (600, Some(64)),
        ];
        for (blocks, places) in table {
            let memory = vec![in rt.alloc(); [0u8; 512]; blocks]?;
            match Tray::new(memory) {
                Ok(tray) => {
                    assert_eq!(rt; Some(tray.limit(7)), places);
                    assert_eq!(rt; Tray::accepts(blocks), Ok(()));
                    assert_eq!(rt; tray.into_memory().len(), blocks);
                }
                Err(unmade) => {
                    assert_eq!(rt; places, None);
                    assert_eq!(rt; unmade.fault.number(), 4);
                    assert_eq!(rt; Tray::accepts(blocks), Err(CarrierFault::SmallMemory));
                    assert_eq!(rt; unmade.memory.len(), blocks);
                }
            }
        }
        Ok(())
    }

    #[test]
    fn stations_above_seven_have_none(rt: HostRuntime) {
        let has = [false, false, false, false, false, false, false, true];
        let mut wall = Wall::new(Reel::new(), Reel::new(), Stations { has });
        let mut bytes = [3; 512];
        for station in [8, 255] {
            assert_eq!(rt; wall.limit(station), 0);
            assert_eq!(rt; wall.put(station, &[1; 512]), Err(CarrierFault::Full));
            assert_eq!(rt; wall.take(station, &mut bytes), None);
        }
        assert!(rt; bytes[0] == 3);
        assert_eq!(rt; wall.put(7, &[1; 512]), Ok(()));
        assert_eq!(rt; wall.take(7, &mut bytes), Some(()));
        assert!(rt; bytes[511] == 1);
    }
}
