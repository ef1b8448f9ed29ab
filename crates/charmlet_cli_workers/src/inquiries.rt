//! Lines that show something of a runtime, and change nothing.

ghost use Rattle.std.specs.Prelude.{◌≡◌, map};
ghost use Rattle.charmlet_model.specs.declared.kind.Kind as kinds;
ghost use Rattle.charmlet_stock.specs.ByKind.{at};
ghost use Rattle.charmlet_workers.specs.Runtime.{ArePendingIds, WasSeen, WereCounted};
ghost use Rattle.charmlet_script_output.specs.Shown.{IsWhole, all_kinds};
ghost use Rattle.charmlet_cli_workers.specs.Said.{IsCensusText, IsPendingText, IsStateText, IsWithin, IsWritten, counted_by};

use charmlet_chare::Chare;
use charmlet_disk::Disk;
use charmlet_model::{Answer, Elem, Kind};
use charmlet_script::{Counted, PendingIds};
use charmlet_script_output::{
    shown_of, write_answer, write_counts, write_line, write_memory_refused,
};
use charmlet_sequencer::RuntimeName;
use charmlet_stock::{ByKind, Tally};
use charmlet_workers::Runtime;
use std::alloc::Global;
use std::io;
use std::io::Write;
use std::sync::Wait;

/// Writes where the element stands and its state, or why it can't be shown: out of memory, or
/// halted with a delivery on its processor that isn't committed. Fails as `write_line` does.
pub(crate) fn state_line<D: Disk, C: Chare, B: RuntimeName, W: Write, R: Wait>(
    rt: &R,
    alloc: Global,
    runtime: &Runtime<D, C, B>,
    elem: Elem,
    writer: &mut W,
) -> io::Result<()>
    ensures { IsWritten result (IsStateText (WasSeen runtime.now) elem) (W.contents writer.old)
        (W.contents writer.new) }
{
    let look = match runtime.look(rt, elem) {
        Ok(look) => look,
        Err(refusal) => return write_answer(alloc, writer, &Answer::Refused(refusal)),
    };
    match shown_of(alloc, elem, look) {
        Ok(shown) => write_line(alloc, writer, &shown),
        Err(_) => write_memory_refused(writer),
    }
}

/// Writes the ids of the pending messages, or that it is out of memory. Fails as `write_line` does.
pub(crate) fn pending_line<D: Disk, C: Chare, B: RuntimeName, W: Write, R: Wait>(
    rt: &R,
    alloc: Global,
    runtime: &Runtime<D, C, B>,
    writer: &mut W,
) -> io::Result<()>
    ensures { IsWritten result (IsPendingText (ArePendingIds runtime.now)) (W.contents writer.old)
        (W.contents writer.new) }
{
    match runtime.pending(rt, alloc) {
        Ok(ids) => write_line(alloc, writer, &PendingIds(ids.as_slice())),
        Err(_) => write_memory_refused(writer),
    }
}

/// Writes a line for each kind of which objects were supplied, with where they are. Fails as
/// `write_line` does, and the lines before stay written.
pub(crate) fn census_line<D: Disk, C: Chare, B: RuntimeName, W: Write, R: Wait>(
    rt: &R,
    alloc: Global,
    runtime: &Runtime<D, C, B>,
    writer: &mut W,
) -> io::Result<()>
    ensures { IsWritten result (IsCensusText (WereCounted runtime.now)) (W.contents writer.old)
        (W.contents writer.new) }
{
    let counts = count_each(&runtime.census(rt));
    write_counts(alloc, writer, &counts)
}

/// Where the objects of each kind are, in rising order of the kinds.
fn count_each(census: &ByKind<Tally>) -> [Counted; 6]
    requires { (kind : kinds.Kind) → IsWithin (at census.now kind) }
    ensures counts { result ≡ map (counted_by census.now) all_kinds }
    ensures whole { (kind : kinds.Kind) → IsWhole (counted_by census.now kind) }
{
    [
        count(census, Kind::Counter),
        count(census, Kind::Ring),
        count(census, Kind::Account),
        count(census, Kind::Sum),
        count(census, Kind::Tree),
        count(census, Kind::Tape),
    ]
}

/// Where the objects of a kind are. No delivery is under way while a line is run, so those that are
/// neither in the stock nor retired are on shelves.
fn count(census: &ByKind<Tally>, kind: Kind) -> Counted
    requires { IsWithin (at census.now kind) }
    ensures counts { result ≡ counted_by census.now kind }
    ensures whole { IsWhole (counted_by census.now kind) }
{
    let tally = census.get(kind);
    Counted {
        kind,
        supplied: tally.supplied,
        on_shelves: tally.supplied - tally.in_stock - tally.retired,
        in_stock: tally.in_stock,
        retired: tally.retired,
    }
}
