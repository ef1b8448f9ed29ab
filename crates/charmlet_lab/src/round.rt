//! A run of a script over a disk that may fail.

ghost use Rattle.std.specs.Prelude.{◌≡◌, ◌≤◌, ◌+◌, Ok, false, true, IfErr, IfOk, OnOk};
ghost use Rattle.charmlet_model.specs.declared.kind.Kind as kinds;
ghost use Rattle.charmlet_model.specs.Shelves.{count_of};
ghost use Rattle.charmlet_recovery.specs.RestartLaws.{IsEnough};
ghost use Rattle.charmlet_disk.specs.Disk.{IsSettled};
ghost use Rattle.charmlet_locate.specs.Locations.{is_processor_count};
ghost use Rattle.charmlet_stock.specs.Stock as stocks;
ghost use Rattle.charmlet_stock.specs.Stock.{part_of};
ghost use Rattle.charmlet_script.specs.Script.{blanks_in, blanks_of, processors_of};
ghost use Rattle.charmlet_engine.specs.Advances.{Advances};
ghost use Rattle.charmlet_engine.specs.Engine.{view_of};
ghost use Rattle.charmlet_requests.specs.Handlers.{handler_of};
ghost use Rattle.charmlet_lab.specs.Lines.{AreRun, DeliversNext, DeliversNone, Drains, Follows, IsRunOf, IsSupplied};
ghost use Rattle.charmlet_lab.specs.Rounds.{HaltsByFailure, IsNotRun, IsRound, arrays_of, needed_by};

use charmlet_chare::Chare;
use charmlet_disk::Disk;
use charmlet_engine::{Engine, lacking, stock_from_objects};
use charmlet_halves::Refused;
use charmlet_history::Request;
use charmlet_model::{Answer, Elem, Event, Kind, Refusal, Step, Words};
use charmlet_requests::Handlers;
use charmlet_script::{Line, Script};
use charmlet_script_output::{handlers_of, supplied_by};
use charmlet_stock::Stock;
use std::alloc::{AllocError, Global};

/// The result of a run.
#[derive(Drop)]
pub struct Round<D: Disk> {
    /// The disk, as the run left it.
    pub disk: D,
    /// The events of the run, in order.
    pub events: Vec<Event>,
    /// How many of the events were durable, as the store says; `None` if the store wasn't reported
    /// as made.
    pub durable: Option<u64>,
    /// Whether the disk failed.
    pub is_stopped: bool,
}

/// Runs a script over a disk, which may fail at some call: then no further line is run. `blanks`
/// are the objects that the script's lines supply. Nothing is printed. The disk has to be settled.
///
/// The events are those of the script's lines up to that failure, in order, and as many of them are
/// durable as the store says. No line lacked memory. The disk counts one failure if the run was
/// stopped, and none otherwise.
///
/// On an honest disk that had no store, each crash after the run leaves files that recover to the
/// world after some of the events, including all that were durable. If the store wasn't reported as
/// made, they recover to nothing or to the new store.
///
/// `BlanksWanted` if the script's lines supply more blanks of a kind than there are, with the
/// lowest such kind and all that they supply of it; `BadPes` if the script's number of processors
/// isn't 1 to 64; `AlreadyHere` if a half of the disk is open; `Memory`, also if a line lacks it.
pub fn lab_round<D: Disk, C: Chare>(
    alloc: Global,
    script: &Script,
    blanks: Vec<C>,
    disk: D,
) -> Result<Round<D>, Refusal>
    requires settled { D.honest disk → IsSettled (D.file disk) }
    ensures ok { IfOk result (IsRound D.Disk (arrays_of script.now) disk) }
    ensures ran { IfOk result (IsRunOf script.now) }
    ensures processors { IfOk result (λ _. is_processor_count (processors_of script.now) ≡ true) }
    ensures enough { IfOk result (λ _.
        IsEnough (count_of C.state blanks.items) (needed_by script.now)) }
    ensures err { IfErr result (IsNotRun D.Disk (count_of C.state blanks.items) script.now disk) }
{
    let manifest = script.manifest(alloc)?;
    let handlers = handlers_of(alloc, script.handlers())?;
    let Ok(mut source) = stock_from_objects(alloc, blanks) else {
        return Err(Refusal::Memory);
    };
    if let Some(lack) = lacking(&source, &supplied_by(script)) {
        return Err(lack);
    }
    match Engine::create(alloc, disk, manifest, script.processors()) {
        Ok(mut engine) => {
            engine.note_events();
            run_lines(&mut engine, &handlers, &mut source, script.lines())?;
            engine.facts();
            let Some(noted) = engine.events() else {
                return Err(Refusal::Memory);
            };
            let events = copy_of(alloc, noted)?;
            let durable = Some(engine.durable());
            let is_stopped = engine.is_halted();
            Ok(Round {
                disk: engine.into_disk(),
                events,
                durable,
                is_stopped,
            })
        }
        Err(
            Refused {
                refusal: Refusal::Device,
                disk,
            },
        ) => Ok(Round {
            disk,
            events: Vec::new(alloc),
            durable: None,
            is_stopped: true,
        }),
        Err(Refused { refusal, .. }) => Err(refusal),
    }
}

/// A copy of the events. It fails only when out of memory.
fn copy_of(alloc: Global, events: &[Event]) -> Result<Vec<Event>, AllocError>
    ensures { IfOk result (λ copy. copy.items ≡ events.now) }
{
    let mut copy = Vec::with_capacity(alloc, events.len())?;
    for event in events {
        copy.push(event_of(alloc, event)?)?;
    }
    Ok(copy)
}

/// A copy of the event. It fails only when out of memory.
fn event_of(alloc: Global, event: &Event) -> Result<Event, AllocError>
    ensures { IfOk result (λ copy. copy ≡ event.now) }
{
    match event {
        Event::Accept {
            client,
            number,
            to,
            entry,
            words,
        } => Ok(Event::Accept {
            client: *client,
            number: *number,
            to: *to,
            entry: *entry,
            words: Words::from_slice(alloc, words.as_slice())?,
        }),
        Event::Deliver(id) => Ok(Event::Deliver(*id)),
    }
}

/// Runs lines one after another, until the disk fails. There have to be as many blanks as they
/// supply. It fails only when out of memory.
fn run_lines<D: Disk, C: Chare>(
    engine: &mut Engine<D, C>,
    handlers: &Handlers,
    source: &mut Stock<C>,
    lines: &[Line],
) -> Result<(), AllocError>
    requires enough { (kind : kinds.Kind) →
        blanks_of kind lines.now ≤ stocks.blanks_in source.old kind }
    ensures ran { OnOk result (AreRun (handler_of handlers.now) (view_of engine.old) lines.now
        (view_of engine.new)) }
    ensures advances { Advances D.Disk engine.old engine.new }
    ensures counted { HaltsByFailure D.Disk engine.old engine.new }
{
    engine.facts();
    for line in lines {
        if engine.is_halted() {
            return Ok(());
        }
        run_line(engine, handlers, source, line)?;
    }
    Ok(())
}

/// Runs one line. There have to be as many blanks as it supplies, and it takes no others. It fails
/// only when out of memory.
fn run_line<D: Disk, C: Chare>(
    engine: &mut Engine<D, C>,
    handlers: &Handlers,
    source: &mut Stock<C>,
    line: &Line,
) -> Result<(), AllocError>
    requires enough { (kind : kinds.Kind) →
        blanks_in kind line.now ≤ stocks.blanks_in source.old kind }
    ensures follows { OnOk result (Follows (handler_of handlers.now) (view_of engine.old) line.now
        (view_of engine.new)) }
    ensures left { (kind : kinds.Kind) → stocks.blanks_in source.old kind
        ≤ stocks.blanks_in source.new kind + blanks_in kind line.now }
    ensures advances { Advances D.Disk engine.old engine.new }
    ensures counted { HaltsByFailure D.Disk engine.old engine.new }
{
    engine.facts();
    match line {
        Line::Supply { kind, count } => supply(engine, source, *kind, *count),
        Line::Drain { count } => drain(engine, *count),
        Line::State(_) | Line::Pending | Line::Census => Ok(()),
        Line::Call {
            client,
            number,
            name,
            index,
            words,
        } => {
            let handler = engine.target(handlers, name.as_str());
            let to = Elem {
                array: handler.array,
                index: *index,
            };
            let request = Request {
                number: *number,
                to,
                entry: handler.entry,
                words: words.as_slice(),
            };
            // Here and below, the only answer that matters is a lack of memory.
            match engine.ask(*client, &request) {
                Err(Refusal::Memory) => Err(AllocError),
                _ => Ok(()),
            }
        }
        Line::Step(step) => match engine.step(step) {
            Answer::Refused(Refusal::Memory) => Err(AllocError),
            _ => Ok(()),
        },
    }
}

/// Supplies `count` blanks, which have to be there. It fails only when out of memory.
fn supply<D: Disk, C: Chare>(
    engine: &mut Engine<D, C>,
    source: &mut Stock<C>,
    kind: Kind,
    count: u32,
) -> Result<(), AllocError>
    requires enough { count ≤ stocks.blanks_in source.old kind }
    ensures supplied { OnOk result (IsSupplied kind count (view_of engine.old)
        (view_of engine.new)) }
    ensures left { (other : kinds.Kind) → stocks.blanks_in source.old other
        ≤ stocks.blanks_in source.new other + part_of kind count other }
    ensures advances { Advances D.Disk engine.old engine.new }
    ensures counted { HaltsByFailure D.Disk engine.old engine.new }
{
    engine.transfer_from(source, kind, count as usize)
}

/// Delivers the oldest message that can be delivered, up to `most` times, or up to a refusal. It
/// fails only when out of memory.
fn drain<D: Disk, C: Chare>(engine: &mut Engine<D, C>, most: u32) -> Result<(), AllocError>
    ensures drains { OnOk result (Drains most (view_of engine.old) (view_of engine.new)) }
    ensures advances { Advances D.Disk engine.old engine.new }
    ensures counted { HaltsByFailure D.Disk engine.old engine.new }
{
    engine.facts();
    for _ in 0..most {
        if !deliver_next(engine)? {
            return Ok(());
        }
    }
    Ok(())
}

/// Delivers the oldest message that can be delivered, and returns whether it did. It fails only
/// when out of memory.
fn deliver_next<D: Disk, C: Chare>(engine: &mut Engine<D, C>) -> Result<bool, AllocError>
    ensures delivers { result ≡ Ok true → DeliversNext (view_of engine.old) (view_of engine.new) }
    ensures none { result ≡ Ok false → DeliversNone (view_of engine.old) (view_of engine.new) }
    ensures advances { Advances D.Disk engine.old engine.new }
    ensures counted { HaltsByFailure D.Disk engine.old engine.new }
{
    engine.facts();
    let Some((processor, id)) = engine.next() else {
        return Ok(false);
    };
    match engine.step(&Step::Deliver { processor, id }) {
        Answer::Refused(Refusal::Memory) => Err(AllocError),
        Answer::Refused(_) => Ok(false),
        _ => Ok(true),
    }
}
