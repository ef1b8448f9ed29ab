//! The running of `drain` lines.

ghost use Rattle.charmlet_script.specs.declared.script.Line.TheVariants as lines;
ghost use Rattle.charmlet_engine.specs.Advances.{Advances};
ghost use Rattle.charmlet_script_output.specs.Ledgers.{ledger_in};
ghost use Rattle.charmlet_cli.specs.Lines.{IsPrinted, no_names};

use charmlet_chare::Chare;
use charmlet_disk::Disk;
use charmlet_engine::{Deliveries, Engine};
use charmlet_model::Answer;
use charmlet_script::Drained;
use charmlet_script_output::{write_answer, write_line};
use std::alloc::Global;
use std::io;
use std::io::Write;

/// Delivers the oldest message that can be delivered, up to `most` times, and then writes how many
/// it delivered and how many are still pending. A refused delivery ends it, and is written too.
/// Fails as `write_line` does, after all deliveries. The writer is flushed before, since deliveries
/// may take long; if that flush fails, the next one reports it.
pub fn drain_line<D: Disk, C: Chare, W: Write>(
    alloc: Global,
    engine: &mut Engine<D, C>,
    most: u32,
    writer: &mut W,
) -> io::Result<()>
    ensures advances { Advances D.Disk engine.old engine.new }
    ensures prints { IsPrinted D.Disk no_names result (ledger_in engine.old) (lines.Drain most)
        (ledger_in engine.new) (W.contents writer.old) (W.contents writer.new) }
{
    let _ = writer.flush();
    let Deliveries { count, refusal } = engine.deliver_up_to(most);
    let left = engine.pending_count() as u64;
    let drained = Drained {
        delivered: count,
        left,
    };
    write_line(alloc, writer, &drained)?;
    let Some(refusal) = refusal else {
        return Ok(());
    };
    write_answer(alloc, writer, &Answer::Refused(refusal))
}
