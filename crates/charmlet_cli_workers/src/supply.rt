//! The running of `supply` lines.

ghost use Rattle.std.specs.Prelude.{◌≡◌, ◌+◌, ◌≤◌};
ghost use Rattle.charmlet_model.specs.declared.kind.Kind as kinds;
ghost use Rattle.charmlet_stock.specs.Stock.{blanks_in, part_of};
ghost use Rattle.charmlet_cli_workers.specs.Said.{IsSupplyText, IsWritten};

use charmlet_chare::Chare;
use charmlet_disk::Disk;
use charmlet_model::Kind;
use charmlet_script::Supplied;
use charmlet_script_output::{write_line, write_memory_refused};
use charmlet_sequencer::RuntimeName;
use charmlet_stock::Stock;
use charmlet_workers::Runtime;
use std::alloc::{AllocError, Global};
use std::io;
use std::io::Write;
use std::sync::Wait;

/// Supplies `count` objects of a kind, and writes that it did, or that it is out of memory. Objects
/// that aren't taken in are dropped: the lines after this one have their own. Fails as `write_line`
/// does.
pub(crate) fn supply_line<D: Disk, C: Chare, B: RuntimeName, W: Write, R: Wait>(
    rt: &R,
    alloc: Global,
    runtime: &Runtime<D, C, B>,
    source: &mut Stock<C>,
    kind: Kind,
    count: u32,
    writer: &mut W,
) -> io::Result<()>
    requires enough { count ≤ blanks_in source.old kind }
    ensures left { (k : kinds.Kind) →
        blanks_in source.old k ≤ blanks_in source.new k + part_of kind count k }
    ensures written { IsWritten result (IsSupplyText kind count) (W.contents writer.old)
        (W.contents writer.new) }
{
    let Ok(blanks) = taken_from(alloc, source, kind, count as usize) else {
        return write_memory_refused(writer);
    };
    if runtime.supply(rt, blanks).is_err() {
        return write_memory_refused(writer);
    }
    write_line(alloc, writer, &Supplied { kind, count })
}

/// `count` objects of a kind from a stock, which has to have them. It fails only when out of
/// memory, and then takes none.
fn taken_from<C: Chare>(
    alloc: Global,
    source: &mut Stock<C>,
    kind: Kind,
    count: usize,
) -> Result<Vec<C>, AllocError>
    requires { count ≤ blanks_in source.old kind }
    ensures { (k : kinds.Kind) →
        blanks_in source.old k ≤ blanks_in source.new k + part_of kind count k }
{
    let mut blanks = Vec::with_capacity(alloc, count)?;
    for _ in 0..count {
        let Some(blank) = source.take(kind) else {
            unreachable!()
        };
        blanks.push_reserved(blank);
    }
    Ok(blanks)
}
