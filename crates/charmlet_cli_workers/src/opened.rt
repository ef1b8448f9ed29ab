//! Runtimes that are opened for a script, and taken apart after it.

ghost use Rattle.std.specs.Prelude.{◌≡◌, ℕ, ◌≤◌, [], Err, None, false, IfErr, IfOk, IfSome, IsErr, IsSome, OnErr, OnOk, map};
ghost use Rattle.charmlet_model.specs.declared.kind.Kind.{Kind};
ghost use Rattle.charmlet_script.specs.Script.{blanks_of};
ghost use Rattle.charmlet_stock.specs.declared.stock.Stock as stocks;
ghost use Rattle.charmlet_stock.specs.Stock.{blanks_in};
ghost use Rattle.charmlet_locks.specs.GhostAuth.Naming.{table_of};
ghost use Rattle.charmlet_sequencer.specs.Sequencer.{IsOf};
ghost use Rattle.charmlet_workers.specs.Runtime.{shown_of};
ghost use Rattle.charmlet_runtime.specs.Reopened.{IsReopened, IsRestart, core_to_be};
ghost use Rattle.charmlet_runtime.specs.Reopening.{IsOver};
ghost use Rattle.charmlet_cli_workers.specs.Heard.{AreTidy, IsDoneBy, known_by, names_in};
ghost use Rattle.charmlet_cli_workers.specs.Left.{EndsApart, EndsEarly, IsApart, IsEarly, IsLeft, Prints, PrintsOver};
ghost use Rattle.charmlet_cli_workers.specs.Lines.{has_delivery};
ghost use Rattle.charmlet_cli_workers.specs.Said.{opening_generation, opening_texts, unknown};
ghost use Rattle.charmlet_script_output.specs.Writing.{in_lines, Writes};

use crate::ended::{RanByWorkers, WorkersError};
use crate::lines::run_lines;
use crate::seats::{Floor, Lent, give_up, take_seats};
use charmlet_chare::Chare;
use charmlet_disk::Disk;
use charmlet_hub::Closed;
use charmlet_requests::Handlers;
use charmlet_runtime::{NotRestarted, Reopened, open_reopened};
use charmlet_script::Line;
use charmlet_script_output::{RestartedLine, write_line};
use charmlet_sequencer::RuntimeName;
use charmlet_stock::Stock;
use charmlet_workers::{Runtime, UnnamedAuthorities};
use std::alloc::Global;
use std::io;
use std::io::Write;
use std::sync::Wait;
use std::thread::Threads;

/// The lines of a script, for a number of processors, and the line of a restarted store, which is
/// written before them.
#[derive(Clone, Copy)]
pub(crate) struct Lines<'a> {
    pub(crate) processors: u16,
    pub(crate) restarted: Option<RestartedLine>,
    pub(crate) lines: &'a [Line],
}

/// The handlers of a script, and the objects that its lines supply.
#[derive(Drop)]
pub(crate) struct Given<C: Chare> {
    pub(crate) handlers: Handlers,
    pub(crate) source: Stock<C>,
}

/// Opens the runtime of a restarted store, under the name `B`, runs lines over it, and takes it
/// apart. The refusals are those of [`open_reopened`]; then the output is unchanged.
pub(crate) fn run_reopened<
    D: Disk,
    C: Chare,
    T: Drop,
    B: RuntimeName + Send + Sync,
    W: Write,
    R: Threads + Wait + Sync,
>(
    rt: &R,
    alloc: Global,
    reopened: Reopened<D, C>,
    authorities: UnnamedAuthorities,
    given: Given<C>,
    lines: &Lines<'_>,
    writer: &mut W,
) -> Result<RanByWorkers<D, T>, NotRestarted<D, C>>
    requires named { IsOf B.opening B.before B.processors (core_to_be reopened) }
    requires generation { B.generation ≡ (core_to_be reopened).generation }
    requires restarted { (core_to_be reopened).generation
        ≡ opening_generation lines.now.restarted }
    requires parts { table_of authorities.parts ≡ B.table }
    requires seats { table_of authorities.seats ≡ B.seats }
    requires passes { table_of authorities.passes ≡ B.passes }
    requires checkpoints { table_of authorities.checkpoints ≡ B.checkpoints }
    requires honest { B.honest → D.honest reopened.disk }
    requires only_honest { D.honest reopened.disk → B.honest }
    requires no_delivery { has_delivery lines.now.lines.now ≡ false }
    requires enough { (kind : Kind) → blanks_of kind lines.now.lines.now
        ≤ blanks_in given.source kind }
    ensures left { IfOk result (λ ran. IfSome ran.disk (IsLeft D.Disk (core_to_be reopened).opening
        (core_to_be reopened).before (core_to_be reopened).processors
        (λ last. PrintsOver ran.result lines.now.restarted last (names_in given.handlers)
        lines.now.lines.now (W.contents writer.old) (W.contents writer.new)))) }
    ensures prints { IfOk result (λ ran. Prints ran.result lines.now.restarted unknown
        (λ deeds. Unit {0}) lines.now.lines.now (W.contents writer.old) (W.contents writer.new)) }
    ensures honest { IfOk result (λ ran. IfSome ran.disk (λ disk.
        D.honest reopened.disk → D.honest disk)) }
    ensures back { IfOk result (λ ran. OnOk ran.result (IsSome ran.disk)) }
    ensures err { IfOk result (λ ran. IfErr ran.result
        (EndsEarly ran.disk writer.old writer.new)) }
    ensures over { OnOk result ((processors : ℕ) (blanks : stocks.Stock C C.Chare) (first : D) →
        IsReopened D.Disk processors blanks first reopened → IsOver D.Disk processors blanks first
        (core_to_be reopened) (shown_of (core_to_be reopened))) }
    ensures refused { IfErr result (λ refused. (processors : ℕ)
        (blanks : stocks.Stock C C.Chare) (first : D) →
        IsReopened D.Disk processors blanks first reopened →
        IsRestart D.Disk processors blanks first (Err refused)) }
    ensures silent { OnErr result (writer.new ≡ writer.old) }
{
    match open_reopened::<D, C, B>(alloc, reopened, authorities) {
        Ok(runtime) => Ok(run_opened(rt, alloc, runtime, given, lines, writer)),
        Err(refused) => Err(refused),
    }
}

/// Runs lines over a runtime that was opened for them, and takes it apart.
pub(crate) fn run_opened<
    D: Disk,
    C: Chare,
    T: Drop,
    B: RuntimeName + Send + Sync,
    W: Write,
    R: Threads + Wait + Sync,
>(
    rt: &R,
    alloc: Global,
    runtime: Runtime<D, C, B>,
    given: Given<C>,
    lines: &Lines<'_>,
    writer: &mut W,
) -> RanByWorkers<D, T>
    requires restarted { runtime.generation ≡ opening_generation lines.now.restarted }
    requires no_delivery { has_delivery lines.now.lines.now ≡ false }
    requires enough { (kind : Kind) → blanks_of kind lines.now.lines.now
        ≤ blanks_in given.source kind }
    ensures left { IfSome result.disk (IsLeft D.Disk runtime.opening runtime.before
        runtime.processors (λ last. PrintsOver result.result lines.now.restarted last
        (names_in given.handlers) lines.now.lines.now (W.contents writer.old)
        (W.contents writer.new))) }
    ensures prints { Prints result.result lines.now.restarted unknown (λ deeds. Unit {0})
        lines.now.lines.now (W.contents writer.old) (W.contents writer.new) }
    ensures honest { IfSome result.disk (λ disk. B.honest → D.honest disk) }
    ensures back { OnOk result.result (IsSome result.disk) }
    ensures err { IfErr result.result (EndsEarly result.disk writer.old writer.new) }
{
    let Given { handlers, source } = given;
    let mut floor = Floor::new(alloc, handlers, source);
    let ran = run_on(rt, alloc, &runtime, &mut floor, lines, writer);
    take_apart(runtime, floor, ran)
}

/// Takes the seats of the workers, and runs lines.
fn run_on<
    D: Disk,
    C: Chare,
    T: Drop,
    B: RuntimeName + Send + Sync,
    W: Write,
    R: Threads + Wait + Sync,
>(
    rt: &R,
    alloc: Global,
    runtime: &Runtime<D, C, B>,
    floor: &mut Floor<C, B>,
    lines: &Lines<'_>,
    writer: &mut W,
) -> Result<(), WorkersError<T>>
    requires no_delivery { has_delivery lines.now.lines.now ≡ false }
    requires enough { (kind : Kind) → blanks_of kind lines.now.lines.now
        ≤ blanks_in floor.old.source kind }
    requires passes { floor.old.clients.passes.items ≡ [] }
    requires tidy { AreTidy floor.old.clients.passes.items floor.old.clients.places.entries }
    requires slots { floor.old.slots.items ≡ [] }
    requires seats { floor.old.seats.items ≡ [] }
    ensures seats { floor.new.seats.items ≡ [] }
    ensures err { IfErr result (IsEarly writer.old writer.new) }
    ensures prints { Prints result lines.now.restarted
        (known_by runtime.now (names_in floor.old.handlers) floor.new.clients.passes.items)
        (IsDoneBy floor.new.clients.passes.items
        (map (λ slot. slot.seat.ids) floor.new.slots.items)) lines.now.lines.now
        (W.contents writer.old) (W.contents writer.new) }
{
    let slots = &mut floor.slots;
    let seats = &mut floor.seats;
    let Ok(()) = take_seats(rt, runtime, slots, seats, lines.processors) else {
        return Err(WorkersError::NoSeats);
    };
    if let Err(error) = write_opening(alloc, lines.restarted, writer) {
        return Err(WorkersError::Output(error));
    }
    match run_lines(rt, alloc, runtime, floor, lines.lines, writer) {
        Ok(()) => Ok(()),
        Err(error) => Err(WorkersError::Output(error)),
    }
}

/// Writes the line of a restarted store, if there is one. Fails as `write_line` does.
fn write_opening<W: Write>(
    alloc: Global,
    restarted: Option<RestartedLine>,
    writer: &mut W,
) -> io::Result<()>
    ensures { Writes result (W.contents writer.old) (W.contents writer.new)
        (in_lines (opening_texts restarted)) }
{
    match restarted {
        Some(line) => write_line(alloc, writer, &line),
        None => Ok(()),
    }
}

/// Takes the runtime apart, with all seats and passes that were lent. It takes no memory if the
/// list of seats has room for all of them. The disk comes back, unless a lent seat or pass isn't
/// there.
fn take_apart<D: Disk, C: Chare, T: Drop, B: RuntimeName>(
    runtime: Runtime<D, C, B>,
    floor: Floor<C, B>,
    ran: Result<(), WorkersError<T>>,
) -> RanByWorkers<D, T>
    requires seats { floor.seats.items ≡ [] }
    ensures left { IfSome result.disk (IsApart D.Disk runtime.opening runtime.before
        runtime.processors floor.clients.passes.items
        (map (λ slot. slot.seat.ids) floor.slots.items)) }
    ensures honest { IfSome result.disk (λ disk. B.honest → D.honest disk) }
    ensures same { IsSome result.disk → result.result ≡ ran }
    ensures back { OnOk result.result (IsSome result.disk) }
    ensures err { IfErr result.result (EndsApart ran result.disk) }
{
    let Lent {
        slots,
        mut seats,
        passes,
    } = floor.into_lent();
    let Ok(()) = give_up(slots, &mut seats) else {
        return not_closed(ran);
    };
    match runtime.close(seats, passes) {
        Ok(Closed { store, halves, own }) => {
            store.history.facts();
            drop(store);
            drop(own);
            RanByWorkers {
                disk: Some(halves.into_disk()),
                result: ran,
                constructions: None,
            }
        }
        Err(_) => not_closed(ran),
    }
}

/// The result if the disk doesn't come back: `NotClosed`, unless a line couldn't be written before.
fn not_closed<D: Disk, T: Drop>(ran: Result<(), WorkersError<T>>) -> RanByWorkers<D, T>
    ensures disk { result.disk ≡ None }
    ensures err { IfErr result.result (EndsApart ran result.disk) }
    ensures ends { IsErr result.result }
{
    match ran {
        Ok(()) => RanByWorkers {
            disk: None,
            result: Err(WorkersError::NotClosed),
            constructions: None,
        },
        Err(error) => RanByWorkers {
            disk: None,
            result: Err(error),
            constructions: None,
        },
    }
}
