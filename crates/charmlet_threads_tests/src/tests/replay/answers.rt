// The results of the plain replay of two files, of one by several workers, and of a restart: as
// texts.

ghost use Rattle.charmlet_halves.specs.Found.{Reads};
ghost use Rattle.charmlet_replay.specs.Unused.{IsUnused};

use charmlet_halves::{Surveyed, survey};
use charmlet_locate::is_processor_count;
use charmlet_model::{Answer, Elem, Half, Kind, Refusal};
use charmlet_parallel_replay::{NotRepeated, ReplayError, replay_by};
use charmlet_record::{Fault, ReadError};
use charmlet_recover::{NotRestarted, Recovered, replayable_half, restart_by, stock_from_objects};
use charmlet_reference::{Recovered as Plain, recover};
use charmlet_replay::{NotReplayed, Replayed, replay};
use charmlet_stock::Stock;
use charmlet_store::Store;
use charmlet_testing::{Object, ProbeDisk, Tally, blanks, wanted_objects};
use std::alloc::{AllocError, AllocGlobal, Global};
use std::process::Abort;
use std::sync::Arc;
use std::thread::Threads;

// One blank of each kind.
const ONE_OF_EACH: [(Kind, u64); 6] = [
    (Kind::Counter, 1),
    (Kind::Ring, 1),
    (Kind::Account, 1),
    (Kind::Sum, 1),
    (Kind::Tree, 1),
    (Kind::Tape, 1),
];

// The bytes of both halves.
#[derive(Clone, Copy)]
pub struct Files<'a> {
    pub zero: &'a [u8],
    pub one: &'a [u8],
}

// A disk and blanks that are ready for a replay. The tally counts the objects.
#[derive(Drop)]
struct Ready {
    tally: Arc<Tally>,
    disk: ProbeDisk,
    stock: Stock<Object>,
}

// A disk with these bytes, which are durable.
pub fn disk_of(rt: &(impl AllocGlobal + Abort), files: Files<'_>) -> ProbeDisk {
    let mut disk = ProbeDisk::new(rt.alloc()).expect(rt, "memory");
    disk.put(Half::Zero, 0, files.zero).expect(rt, "memory");
    disk.put(Half::One, 0, files.one).expect(rt, "memory");
    disk
}

// The blanks that a restart from this disk wants, and one more of each kind.
fn stock_for(
    rt: &(impl AllocGlobal + Abort),
    tally: &Arc<Tally>,
    disk: &mut ProbeDisk,
) -> Stock<Object>
    ensures { IsUnused result }
{
    let mut objects = wanted_objects(rt.alloc(), tally, disk).expect(rt, "memory");
    for object in blanks(rt.alloc(), tally, &ONE_OF_EACH).expect(rt, "memory") {
        objects.push(object).expect(rt, "memory");
    }
    match stock_from_objects(rt.alloc(), objects) {
        Ok(stock) => stock,
        Err(_) => panic!(rt; "memory"),
    }
}

// A disk with these bytes, and the blanks for it.
fn make_ready(rt: &(impl AllocGlobal + Abort), files: Files<'_>) -> Ready
    ensures { IsUnused result.stock }
{
    let tally = Arc::new(rt.alloc(), Tally::new()).expect(rt, "memory");
    let mut disk = disk_of(rt, files);
    let stock = stock_for(rt, &tally, &mut disk);
    Ready { tally, disk, stock }
}

// Adds a refusal, how many objects were dropped, and how many of each kind came back.
fn add_refusal(
    text: &mut String,
    tally: &Tally,
    refusal: Refusal,
    stock: &Stock<Object>,
) -> Result<(), AllocError> {
    let answer = Answer::Refused(refusal);
    let [_, _, _, drops] = tally.counts();
    write!(text, "{answer}\ndrops {drops}\n")?;
    let census = stock.census();
    for kind in &Kind::ALL {
        let back = census.get(*kind);
        write!(text, "{kind} {back:?}\n")?;
    }
    Ok(())
}

// A refusal, and what came back.
fn refused(
    rt: &(impl AllocGlobal + Abort),
    tally: &Tally,
    refusal: Refusal,
    stock: &Stock<Object>,
) -> String {
    let mut text = String::new(rt.alloc());
    add_refusal(&mut text, tally, refusal, stock).expect(rt, "memory");
    text
}

// Adds the view of an element, if anything happened to it.
fn add_element(text: &mut String, store: &mut Store<Object>, elem: Elem) -> Result<(), AllocError> {
    let look = store.look(elem)?;
    if look.received > 0 {
        write!(text, "{elem} {look:?}\n")?;
    }
    Ok(())
}

// Adds the clients' rows, the pending messages, and which message is delivered next.
fn add_waiting(text: &mut String, store: &Store<Object>) -> Result<(), AllocError> {
    for (client, rows) in store.history.clients() {
        let row = rows.present();
        write!(text, "{client} {row:?}\n")?;
    }
    for (id, pending_message) in store.history.messages() {
        write!(text, "{id} {pending_message:?}\n")?;
    }
    if let Some((processor, id)) = store.next() {
        write!(text, "next {id} on {processor}\n")?;
    }
    Ok(())
}

// Adds everything that a store shows of its world, and of its objects.
fn add_store(text: &mut String, store: &mut Store<Object>) -> Result<(), AllocError> {
    let events = store.history.event_count();
    let generation = store.history.generation();
    let durable = store.history.durable_count();
    write!(
        text,
        "events {events} generation {generation}\ndurable {durable}\n"
    )?;
    add_waiting(text, store)?;
    let elements = store.history.elements()?;
    for (elem, _) in &elements {
        add_element(text, store, *elem)?;
    }
    for kind in &Kind::ALL {
        let census = store.census(*kind);
        write!(text, "{kind} {census:?}\n")?;
    }
    Ok(())
}

// Everything that a restored store shows, and whether its half is only of the newest versions.
fn stands(rt: &(impl AllocGlobal + Abort), store: Store<Object>, is_current: bool) -> String {
    let mut store = store;
    let mut text = String::new(rt.alloc());
    add_store(&mut text, &mut store).expect(rt, "memory");
    write!(text, "current {is_current}\n").expect(rt, "memory");
    text
}

// The refusal of a restart from the half that was surveyed.
fn refusal_of(found: &Surveyed, why: ReadError) -> Refusal {
    match why {
        ReadError::Memory => Refusal::Memory,
        ReadError::Damaged(Fault { bytes_left }) => Refusal::Damaged {
            half: found.half,
            offset: found.bytes.len().saturating_sub(bytes_left) as u64,
        },
    }
}

// The result of a replay of the surveyed half.
fn told(
    rt: &(impl AllocGlobal + Abort),
    tally: &Tally,
    found: &Surveyed,
    back: Result<Replayed<Object>, NotReplayed<Object>>,
) -> String {
    match back {
        Ok(Replayed { store, is_current }) => stands(rt, store, is_current),
        Err(NotReplayed { why, blanks }) => refused(rt, tally, refusal_of(found, why), &blanks),
    }
}

// The plain replay of the surveyed half, for which there are enough blanks.
fn replay_plainly(
    rt: &(impl AllocGlobal + Abort),
    found: &Surveyed,
    stock: Stock<Object>,
    processors: u16,
) -> Result<Replayed<Object>, NotReplayed<Object>>
    requires reads { Reads found.now }
    requires unused { IsUnused stock }
{
    assert!(rt; is_processor_count(processors));
    match replayable_half(rt.alloc(), found, &stock) {
        Ok(half) => replay(rt.alloc(), half, stock, processors),
        Err(_) => panic!(rt; "there are blanks enough"),
    }
}

// The replay of the surveyed half by this many workers.
fn replay_by_workers<R: Threads + Sync + AllocGlobal + Abort>(
    rt: &R,
    found: &Surveyed,
    stock: Stock<Object>,
    processors: u16,
    workers: u16,
) -> Result<Replayed<Object>, NotReplayed<Object>>
    requires reads { Reads found.now }
    requires unused { IsUnused stock }
{
    assert!(rt; is_processor_count(processors));
    assert!(rt; is_processor_count(workers));
    match replayable_half(rt.alloc(), found, &stock) {
        Ok(half) => match replay_by(rt, rt.alloc(), half, stock, processors, workers) {
            Ok(replayed) => Ok(replayed),
            Err(NotRepeated { why, blanks }) => match why {
                ReplayError::Read(why) => Err(NotReplayed { why, blanks }),
                ReplayError::OutOfBlanks => panic!(rt; "there are blanks enough"),
            },
        },
        Err(_) => panic!(rt; "there are blanks enough"),
    }
}

// The result of the plain replay of two files.
pub fn by_one(rt: &(impl AllocGlobal + Abort), files: Files<'_>, processors: u16) -> String {
    let Ready {
        tally,
        mut disk,
        stock,
    } = make_ready(rt, files);
    match survey(rt.alloc(), disk.inner()) {
        Ok(found) => {
            let back = replay_plainly(rt, &found, stock, processors);
            told(rt, &tally, &found, back)
        }
        Err(refusal) => refused(rt, &tally, refusal, &stock),
    }
}

// The result of a replay of two files by this many workers.
pub fn by_many<R: Threads + Sync + AllocGlobal + Abort>(
    rt: &R,
    files: Files<'_>,
    processors: u16,
    workers: u16,
) -> String {
    let Ready {
        tally,
        mut disk,
        stock,
    } = make_ready(rt, files);
    match survey(rt.alloc(), disk.inner()) {
        Ok(found) => {
            let back = replay_by_workers(rt, &found, stock, processors, workers);
            told(rt, &tally, &found, back)
        }
        Err(refusal) => refused(rt, &tally, refusal, &stock),
    }
}

// The result of a restart from two files by this many workers.
pub fn by_restart<R: Threads + Sync + AllocGlobal + Abort>(
    rt: &R,
    files: Files<'_>,
    processors: u16,
    workers: u16,
) -> String {
    let Ready { tally, disk, stock } = make_ready(rt, files);
    match restart_by(rt, rt.alloc(), disk, stock, processors, workers) {
        Ok(
            Recovered {
                store,
                halves: _,
                is_current,
            },
        ) => stands(rt, store, is_current),
        Err(
            NotRestarted {
                refusal,
                disk: _,
                blanks,
            },
        ) => refused(rt, &tally, refusal, &blanks),
    }
}

// How the text of what two files recover to begins.
pub fn plainly(alloc: Global, files: Files<'_>) -> Result<String, AllocError> {
    match recover(alloc, files.zero, files.one)? {
        Plain::Nothing => format!(in alloc; "refused 15 NothingHere\n"),
        Plain::Damaged { half, offset } => {
            format!(in alloc; "refused 14 Damaged {half} {offset}\n")
        }
        Plain::Found {
            events,
            generation,
            ..
        } => format!(in alloc; "events {events} generation {generation}\n"),
    }
}

// Whether the records of the half that is taken can be read.
pub fn is_read(rt: &(impl AllocGlobal + Abort), files: Files<'_>) -> bool {
    let mut disk = disk_of(rt, files);
    survey(rt.alloc(), disk.inner()).is_ok()
}
