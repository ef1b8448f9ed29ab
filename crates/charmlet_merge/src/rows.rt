//! Merge of all replayers' replies into the clients' rows.

ghost use Rattle.std.specs.Prelude.{◌≡◌, ℕ, List, OnOk};
ghost use Rattle.charmlet_model.specs.declared.logged.Logged as logs;
ghost use Rattle.charmlet_model.specs.declared.names.Elem as names;
ghost use Rattle.charmlet_model.specs.World.{World, world};
ghost use Rattle.charmlet_record.specs.declared.positioned.Positioned as placed;
ghost use Rattle.charmlet_image.specs.Positioned.{items_of};
ghost use Rattle.charmlet_recovery.specs.Bases.{events_of};
ghost use Rattle.charmlet_recovery.specs.Replays.{LogScan};
ghost use Rattle.charmlet_merge.specs.Rows.{AreToFill};

use charmlet_chare::Chare;
use charmlet_model::ClientRow;
use charmlet_replayers::{Replayer, fill};
use std::alloc::{AllocError, Global};
use std::collections::BTreeMap;

/// Puts copies of all replayers' replies to clients into the clients' rows of a log scan, which
/// doesn't know the words of these replies. Then they are the rows of the world after the log. It
/// fails only when out of memory.
pub fn fill_rows<C: Chare>(
    alloc: Global,
    rows: &mut BTreeMap<u32, ClientRow>,
    replayers: &[Replayer<C>],
) -> Result<(), AllocError>
    ensures { (worker : names.Elem → ℕ) (w : World) (before : ℕ) (scan : LogScan)
        (log : List (placed.Positioned logs.Logged)) →
        AreToFill worker w before scan log rows.old.entries replayers.now →
        OnOk result (rows.new.entries ≡ (world w (events_of (items_of log))).clients) }
{
    for replayer in replayers {
        fill(alloc, rows, replayer.replies.as_slice())?;
    }
    Ok(())
}
