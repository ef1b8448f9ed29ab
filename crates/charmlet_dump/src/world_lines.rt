//! The dump of a world, part by part.

ghost use Rattle.std.specs.Prelude.{◌≡◌, true};
ghost use Rattle.std.specs.List.{flat_map};
ghost use Rattle.charmlet_locate.specs.Locations.{is_processor_count};
ghost use Rattle.charmlet_model.specs.Row.{below};
ghost use Rattle.charmlet_dump.specs.Constructing.{all_kinds};
ghost use Rattle.charmlet_dump.specs.Facts.{array_facts, client_facts, construction_facts, count_facts, element_facts, pending_facts, window_facts, world_facts};
ghost use Rattle.charmlet_dump.specs.Lines.{lines_of};
ghost use Rattle.charmlet_dump.specs.Writing.{Writes};

use crate::constructions::constructions;
use crate::found::Found;
use crate::lines::Fact;
use crate::output::{Form, write_fact};
use charmlet_locate::home;
use charmlet_model::{ClientRow, Elem, Kind, KindVersion, Message, Record};
use charmlet_reference::PlainWorld;
use std::alloc::Global;
use std::collections::BTreeMap;
use std::io;
use std::io::Write;

/// Writes all findings: the generation and the count of events, then the arrays, the elements, the
/// pending messages, how many of them construct elements, and the clients with their windows. Each
/// present element is shown at its home on `processors` processors. Fails as `write_fact` does, and
/// the lines before stay written.
pub fn write_world<W: Write>(
    alloc: Global,
    writer: &mut W,
    form: Form,
    processors: u16,
    found: &Found,
) -> io::Result<()>
    requires processors { is_processor_count processors ≡ true }
    requires arrays { found.now.arrays.items ≡ found.now.world.manifest }
    ensures { Writes result (W.contents writer.old) (W.contents writer.new) (lines_of form
        (world_facts processors found.now.generation found.now.events found.now.world)) }
{
    let store = Fact::Store {
        generation: found.generation,
        events: found.events,
    };
    write_fact(alloc, writer, form, store)?;
    write_arrays(alloc, writer, form, found.arrays.as_slice())?;
    write_elements(alloc, writer, form, processors, found.world.records())?;
    write_pending(alloc, writer, form, found.world.pending())?;
    write_constructions(alloc, writer, form, &found.world)?;
    write_clients(alloc, writer, form, found.world.clients())
}

/// Writes each array with its kind and its version.
fn write_arrays<W: Write>(
    alloc: Global,
    writer: &mut W,
    form: Form,
    arrays: &[(u16, KindVersion)],
) -> io::Result<()>
    ensures { Writes result (W.contents writer.old) (W.contents writer.new)
        (lines_of form (flat_map array_facts arrays.now)) }
{
    for (array, kind_version) in arrays {
        let fact = Fact::Array {
            array: *array,
            kind_version: *kind_version,
        };
        write_fact(alloc, writer, form, fact)?;
    }
    Ok(())
}

/// Writes each element with its home and its record.
fn write_elements<W: Write>(
    alloc: Global,
    writer: &mut W,
    form: Form,
    processors: u16,
    records: &BTreeMap<Elem, Record>,
) -> io::Result<()>
    requires { is_processor_count processors ≡ true }
    ensures { Writes result (W.contents writer.old) (W.contents writer.new)
        (lines_of form (flat_map (element_facts processors) records.now.entries)) }
{
    for (elem, kept) in records {
        write_element(alloc, writer, form, processors, *elem, kept)?;
    }
    Ok(())
}

/// Writes an element with its home and its record.
fn write_element<W: Write>(
    alloc: Global,
    writer: &mut W,
    form: Form,
    processors: u16,
    elem: Elem,
    kept: &Record,
) -> io::Result<()>
    requires { is_processor_count processors ≡ true }
    ensures { Writes result (W.contents writer.old) (W.contents writer.new)
        (lines_of form (element_facts processors (elem, kept.now))) }
{
    let Ok(home) = home(elem, processors) else {
        unreachable!()
    };
    write_fact(alloc, writer, form, Fact::Element { elem, home, kept })
}

/// Writes each pending message.
fn write_pending<W: Write>(
    alloc: Global,
    writer: &mut W,
    form: Form,
    pending: &[Message],
) -> io::Result<()>
    ensures { Writes result (W.contents writer.old) (W.contents writer.new)
        (lines_of form (flat_map pending_facts pending.now)) }
{
    for message in pending {
        write_fact(alloc, writer, form, Fact::Pending { message })?;
    }
    Ok(())
}

/// Writes for each kind how many pending messages construct an element of it, if any do.
fn write_constructions<W: Write>(
    alloc: Global,
    writer: &mut W,
    form: Form,
    world: &PlainWorld,
) -> io::Result<()>
    ensures { Writes result (W.contents writer.old) (W.contents writer.new)
        (lines_of form (flat_map (construction_facts world.now) all_kinds)) }
{
    for kind in &Kind::ALL {
        write_count(alloc, writer, form, *kind, constructions(world, *kind))?;
    }
    Ok(())
}

/// Writes how many pending messages construct an element of this kind, if any do.
fn write_count<W: Write>(
    alloc: Global,
    writer: &mut W,
    form: Form,
    kind: Kind,
    count: usize,
) -> io::Result<()>
    ensures { Writes result (W.contents writer.old) (W.contents writer.new)
        (lines_of form (count_facts kind count)) }
{
    if count == 0 {
        return Ok(());
    }
    write_fact(alloc, writer, form, Fact::Constructions { kind, count })
}

/// Writes each client with its window.
fn write_clients<W: Write>(
    alloc: Global,
    writer: &mut W,
    form: Form,
    clients: &BTreeMap<u32, ClientRow>,
) -> io::Result<()>
    ensures { Writes result (W.contents writer.old) (W.contents writer.new)
        (lines_of form (flat_map client_facts clients.now.entries)) }
{
    for (client, row) in clients {
        write_client(alloc, writer, form, *client, row)?;
    }
    Ok(())
}

/// Writes a client, and the requests of its window.
fn write_client<W: Write>(
    alloc: Global,
    writer: &mut W,
    form: Form,
    client: u32,
    row: &ClientRow,
) -> io::Result<()>
    ensures { Writes result (W.contents writer.old) (W.contents writer.new)
        (lines_of form (client_facts (client, row.now))) }
{
    let last = row.last;
    write_fact(alloc, writer, form, Fact::Client { client, last })?;
    write_window(alloc, writer, form, client, row)
}

/// Writes the requests of a client's window, the oldest first.
fn write_window<W: Write>(
    alloc: Global,
    writer: &mut W,
    form: Form,
    client: u32,
    row: &ClientRow,
) -> io::Result<()>
    ensures { Writes result (W.contents writer.old) (W.contents writer.new)
        (lines_of form (window_facts client (below row.now) row.now.window)) }
{
    let before = row.last.saturating_sub(row.window.len() as u64);
    for place in 0..row.window.len() {
        let fact = Fact::Request {
            client,
            number: before + place as u64 + 1,
            reply: row.window.get(place),
        };
        write_fact(alloc, writer, form, fact)?;
    }
    Ok(())
}
