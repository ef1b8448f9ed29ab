//! Embeds the engine: a store of objects of our own ends, and comes back from its disk.
#![tactic(auto)]

ghost use Rattle.charmlet_engine.specs.Disk.{IsSettled};

mod noisy;

use anyhow::{Context, Result, bail};
use charmlet_engine::{
    CONSTRUCT, Disk, Elem, Engine, FileDisk, Kind, Manifest, MemDisk, Passes, Request, Step,
    manifest, stock_from_objects,
};
use noisy::{ADD, blanks};
use std::thread::Threads;

/// Client 7 makes a counter with 5 and adds 3, and asks again after a restart from the disk, which
/// replays in threads of `threads`.
fn live_twice<R: Threads + Sync, D: Disk>(rt: HostRuntime, threads: &R, disk: D) -> Result<()>
    requires { D.honest disk → IsSettled (D.file disk) }
{
    let alloc = rt.alloc();
    let arrays = Manifest::of(alloc, &[(0, Kind::Counter.number())])?.context("no such arrays")?;
    let mut engine = Engine::create(alloc, disk, arrays, 1)?;
    engine.supply(blanks(rt, 1)?).ok().context("no memory")?;
    let mut pass = engine.lend(&mut Passes::new(alloc), 7)?;
    let counter = Elem { array: 0, index: 0 };
    let construct = Request {
        number: 1,
        to: counter,
        entry: CONSTRUCT,
        words: &[5],
    };
    engine.request(&mut pass, &construct)?;
    let add = Request {
        number: 2,
        to: counter,
        entry: ADD,
        words: &[3],
    };
    let told = engine.request(&mut pass, &add)?;
    println!(rt; "request 2: {told}")?;
    let deliveries = engine.deliver_up_to(100);
    println!(rt; "delivered {}", deliveries.count)?;
    if let Some(refusal) = deliveries.refusal {
        bail!("a delivery is refused: {refusal}");
    }
    println!(rt; "{}", engine.step(&Step::Flush))?;
    println!(rt; "request 2: {}", engine.status(&mut pass, 2)?)?;
    let mut disk = engine.into_disk();
    let wanted = manifest(alloc, &mut disk)?.wanted.of(Kind::Counter);
    let Ok(stock) = stock_from_objects(alloc, blanks(rt, wanted)?) else {
        bail!("no memory");
    };
    let mut engine = Engine::restart(threads, alloc, disk, stock, 1)?;
    println!(rt; "request 2, restarted: {}", engine.tell(7, 2)?)?;
    Ok(())
}

fn main(rt: HostRuntime) -> Result<()> {
    let words: Vec<String> = std::env::args(&rt)?.collect(rt.alloc())?;
    match words.as_slice() {
        [_] => live_twice(rt, &rt, MemDisk::new(rt.alloc())),
        [_, folder] => live_twice(rt, &rt, FileDisk::new(rt, folder.as_str())?),
        _ => bail!("name one folder, or none"),
    }
}
