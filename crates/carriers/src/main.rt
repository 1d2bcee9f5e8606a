// Puts and takes blocks through a wall over a tray and a reel, and lists what was taken in which order and what was refused.
#![tactic(auto)]

use block::Block;
use carrier::{Stations, Wall};
use filling::Trial;
use places::{Reel, Tray, Unmade};

mod filling;
mod letters;

// A wall over a tray in the memory, for stations 0 to 2, and a reel, for all other numbers.
fn wall_of(memory: Vec<Block>) -> Result<Wall<Tray, Reel>, Unmade> {
    let tray = Tray::new(memory)?;
    let of_first = Stations {
        has: [true, true, true, false, false, false, false, false],
    };
    Ok(Wall::new(tray, Reel::new(), of_first))
}

// Makes a wall in a memory of so many blocks, uses it, and takes it apart again.
fn run(rt: &HostRuntime, blocks: usize) -> anyhow::Result<()> {
    let memory = vec![in rt.alloc(); [0u8; 512]; blocks]?;
    let mut wall = match wall_of(memory) {
        Ok(wall) => wall,
        Err(unmade) => {
            let fault = unmade.fault;
            let back = unmade.memory.len();
            println!(rt; "tray of {blocks} blocks: {fault}, {back} handed back")?;
            return Ok(());
        }
    };
    println!(rt; "tray of {blocks} blocks: made")?;
    for station in [2, 5, 8] {
        let trial = Trial { rt, station };
        trial.fill_twice(&mut wall)?;
    }
    let (tray, _) = wall.into_sides();
    let back = tray.into_memory().len();
    println!(rt; "tray of {blocks} blocks: {back} handed back")?;
    Ok(())
}

// Runs with a memory that is too small, and with one for three places a station.
fn main(rt: HostRuntime) -> anyhow::Result<()> {
    for blocks in [7, 24] {
        run(&rt, blocks)?;
    }
    Ok(())
}
