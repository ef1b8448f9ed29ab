//! Lines that show something of an engine, and change nothing.

ghost use Rattle.std.specs.Prelude.{◌≡◌, map, IfOk, IsOk, None};
ghost use Rattle.charmlet_model.specs.declared.kind.Kind as kinds;
ghost use Rattle.charmlet_model.specs.Core.{place_or_home};
ghost use Rattle.charmlet_model.specs.World.{record_of};
ghost use Rattle.charmlet_script.specs.Printed.{shown_text};
ghost use Rattle.charmlet_script.specs.declared.script.Line.TheVariants as lines;
ghost use Rattle.charmlet_engine.specs.Advances.{Advances};
ghost use Rattle.charmlet_engine.specs.Engine.{view_of, world_of};
ghost use Rattle.charmlet_script_output.specs.Ledgers.{ledger_in};
ghost use Rattle.charmlet_cli.specs.Lines.{IsPrinted, no_names};
ghost use Rattle.charmlet_script_output.specs.Shown.{IsWhole, all_kinds, counted_of, record_text};

use charmlet_chare::Chare;
use charmlet_disk::Disk;
use charmlet_engine::Engine;
use charmlet_model::{Elem, Kind};
use charmlet_script::{Counted, PendingIds, Shown};
use charmlet_script_output::{shown_of, write_counts, write_line, write_memory_refused};
use std::alloc::{AllocError, Global};
use std::io;
use std::io::Write;

/// Writes where the element stands and its state, or that it is out of memory. Fails as
/// `write_line` does.
pub fn state_line<D: Disk, C: Chare, W: Write>(
    alloc: Global,
    engine: &mut Engine<D, C>,
    elem: Elem,
    writer: &mut W,
) -> io::Result<()>
    ensures advances { Advances D.Disk engine.old engine.new }
    ensures prints { IsPrinted D.Disk no_names result (ledger_in engine.old) (lines.State elem)
        (ledger_in engine.new) (W.contents writer.old) (W.contents writer.new) }
{
    let Ok(shown) = shown(alloc, engine, elem) else {
        return write_memory_refused(writer);
    };
    write_line(alloc, writer, &shown)
}

/// The `state` line of an element. It fails only when out of memory, and only if the element is
/// there.
fn shown<D: Disk, C: Chare>(
    alloc: Global,
    engine: &mut Engine<D, C>,
    elem: Elem,
) -> Result<Shown, AllocError>
    ensures same { engine.new ≡ engine.old }
    ensures advances { Advances D.Disk engine.old engine.new }
    ensures ok { IfOk result (λ shown. shown_text shown
        ≡ record_text elem (place_or_home (view_of engine.old).core elem)
        (record_of (world_of engine.old) elem)) }
    ensures absent { (record_of (world_of engine.old) elem).state ≡ None → IsOk result }
{
    let look = engine.look(elem)?;
    shown_of(alloc, elem, look)
}

/// Writes the ids of the pending messages, or that it is out of memory. Fails as `write_line` does.
pub fn pending_line<D: Disk, C: Chare, W: Write>(
    alloc: Global,
    engine: &Engine<D, C>,
    writer: &mut W,
) -> io::Result<()>
    ensures { IsPrinted D.Disk no_names result (ledger_in engine.now) lines.Pending
        (ledger_in engine.now) (W.contents writer.old) (W.contents writer.new) }
{
    let Ok(ids) = engine.pending() else {
        return write_memory_refused(writer);
    };
    write_line(alloc, writer, &PendingIds(ids.as_slice()))
}

/// Writes a line for each kind of which objects were supplied, with where they are. Fails as
/// `write_line` does, and the lines before stay written.
pub fn census_line<D: Disk, C: Chare, W: Write>(
    alloc: Global,
    engine: &Engine<D, C>,
    writer: &mut W,
) -> io::Result<()>
    ensures { IsPrinted D.Disk no_names result (ledger_in engine.now) lines.Census
        (ledger_in engine.now) (W.contents writer.old) (W.contents writer.new) }
{
    let counts = count_each(engine);
    write_counts(alloc, writer, &counts)
}

/// Where the objects of each kind are, in rising order of the kinds.
fn count_each<D: Disk, C: Chare>(engine: &Engine<D, C>) -> [Counted; 6]
    ensures counts { result ≡ map (counted_of engine.now) all_kinds }
    ensures whole { (kind : kinds.Kind) → IsWhole (counted_of engine.now kind) }
{
    [
        count(engine, Kind::Counter),
        count(engine, Kind::Ring),
        count(engine, Kind::Account),
        count(engine, Kind::Sum),
        count(engine, Kind::Tree),
        count(engine, Kind::Tape),
    ]
}

/// Where the objects of a kind are.
fn count<D: Disk, C: Chare>(engine: &Engine<D, C>, kind: Kind) -> Counted
    ensures counts { result ≡ counted_of engine.now kind }
    ensures whole { IsWhole (counted_of engine.now kind) }
{
    let census = engine.census(kind);
    Counted {
        kind,
        supplied: census.supplied,
        on_shelves: census.on_shelves,
        in_stock: census.in_stock,
        retired: census.retired,
    }
}
