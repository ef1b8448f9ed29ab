//! The first point at which one of several replayers stopped.

ghost use Rattle.std.specs.Prelude.{◌≡◌, false, Err, IfOk, None, OnOk, Some, length};
ghost use Rattle.std.specs.List.{All};
ghost use Rattle.charmlet_record.specs.declared.reader.Fault as faults;
ghost use Rattle.charmlet_record.specs.declared.reader.ReadError.TheVariants as errors;
ghost use Rattle.charmlet_log_scan.specs.Partition.Parts.{earlier, earliest_stop};
ghost use Rattle.charmlet_replayers.specs.Replayer.Workers.{IsSpared, is_refused, left_at, left_in, left_of, stop_from};

use crate::replayer::replayer::Replayer;
use charmlet_chare::Chare;
use charmlet_record::{Fault, ReadError};
use std::alloc::AllocError;

/// Why a replayer stopped, if it did.
pub(crate) fn stop_of(answer: Result<(), ReadError>) -> Option<ReadError>
    ensures { result ≡ stop_from answer }
{
    match answer {
        Ok(()) => None,
        Err(why) => Some(why),
    }
}

/// The earlier of a fault and another replayer's fault, if it stopped. It fails if that replayer
/// was refused memory.
fn earlier(first: Option<Fault>, stopped: Option<ReadError>) -> Result<Option<Fault>, AllocError>
    ensures { IfOk result (λ found. (left_in found ≡ earlier (left_in first) (left_of stopped))
        × (is_refused stopped ≡ false)) }
{
    let Some(why) = stopped else {
        return Ok(first);
    };
    let ReadError::Damaged(fault) = why else {
        return Err(AllocError);
    };
    let Some(before) = first else {
        return Ok(Some(fault));
    };
    if before.bytes_left < fault.bytes_left {
        Ok(Some(fault))
    } else {
        Ok(Some(before))
    }
}

/// Why replayers stopped, if one did: the earliest of their faults, whichever of them found it; or
/// `Memory`, if one was refused memory.
pub(crate) fn stop_of_replayers<C: Chare>(replayers: &[Replayer<C>]) -> Result<(), ReadError>
    ensures ok { OnOk result ((earliest_stop (length replayers.now) (left_at replayers.now) ≡ None)
        × All IsSpared replayers.now) }
    ensures fault { (fault : faults.Fault) → result ≡ Err (errors.Damaged fault) →
        (earliest_stop (length replayers.now) (left_at replayers.now) ≡ Some fault.bytes_left)
        × All IsSpared replayers.now }
{
    let mut first = None;
    for replayer in replayers {
        first = earlier(first, replayer.stopped)?;
    }
    match first {
        Some(fault) => Err(ReadError::Damaged(fault)),
        None => Ok(()),
    }
}
