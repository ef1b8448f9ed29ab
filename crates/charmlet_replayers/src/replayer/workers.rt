//! A replay by several replayers, with the result of one.

ghost use Rattle.std.specs.Prelude.{◌≡◌, ℕ, Err, List, None, OnOk};
ghost use Rattle.std.specs.List.{All, AllZip};
ghost use Rattle.charmlet_model.specs.declared.names.Elem.{Elem};
ghost use Rattle.charmlet_model.specs.declared.logged.CatchUpEntry as logged;
ghost use Rattle.charmlet_model.specs.declared.state.Record.{Record};
ghost use Rattle.charmlet_record.specs.declared.positioned.Positioned as placed;
ghost use Rattle.charmlet_record.specs.declared.reader.Fault as faults;
ghost use Rattle.charmlet_record.specs.declared.reader.ReadError.TheVariants as errors;
ghost use Rattle.charmlet_image.specs.Positioned.{items_of};
ghost use Rattle.charmlet_model.specs.declared.logged.Logged as logs;
ghost use Rattle.charmlet_model.specs.World.{World, world};
ghost use Rattle.charmlet_recovery.specs.Bases.{events_of, redelivered_all};
ghost use Rattle.charmlet_recovery.specs.Faults.{catch_up_tests, event_tests, first_failure};
ghost use Rattle.charmlet_recovery.specs.Replays.{IsBeginning, LogScan, scan_after};
ghost use Rattle.charmlet_shard.specs.Places.{IsFirstFault};
ghost use Rattle.charmlet_replayers.specs.Replayer.Replayers.{HasTakenAgain, IsReadyReplayer};
ghost use Rattle.charmlet_replayers.specs.Replayer.Tasks.{AreDispatchedTasks, HasNoTask, HasTaken, HaveMoreReplies, IsReadyToDo};
ghost use Rattle.charmlet_replayers.specs.Replayer.Workers.{AreDispatched, AreParts, HasSameTasks, IsWhole};

use crate::replayer::replayer::Replayer;
use crate::replayer::stops::stop_of_replayers;
use crate::replayer::threads::{lend_deliveries, lend_tasks};
use charmlet_chare::Chare;
use charmlet_model::Manifest;
use charmlet_record::ReadError;
use std::thread::Threads;

/// Repeats the deliveries of a catch-up list, each by the replayer that has its receiver, in as
/// many threads as can be started. `Damaged` has the place of the list's first faulty delivery,
/// whichever replayer finds it; `Memory`.
pub fn catch_up_by_workers<R: Threads + Sync, C: Chare>(
    rt: &R,
    manifest: &Manifest,
    replayers: &mut [Replayer<C>],
) -> Result<(), ReadError>
    requires { All (IsReadyReplayer manifest.now) replayers.old }
    ensures ok { (worker : Elem → ℕ) (records : List (Elem × Record))
        (ds : List (placed.Positioned logged.CatchUpEntry)) →
        AreDispatched worker manifest.now records ds replayers.old →
        OnOk result ((first_failure (catch_up_tests manifest.now records (items_of ds)) ≡ None)
        × AreParts worker (redelivered_all manifest.now records (items_of ds)) replayers.new) }
    ensures fault { (worker : Elem → ℕ) (records : List (Elem × Record))
        (ds : List (placed.Positioned logged.CatchUpEntry)) →
        AreDispatched worker manifest.now records ds replayers.old →
        (fault : faults.Fault) → result ≡ Err (errors.Damaged fault) →
        IsFirstFault (catch_up_tests manifest.now records (items_of ds)) ds fault.bytes_left }
    ensures taken { OnOk result (AllZip (HasTakenAgain manifest.now) replayers.old replayers.new) }
    ensures tasks { AllZip HasSameTasks replayers.old replayers.new }
    ensures whole { AllZip IsWhole replayers.old replayers.new }
{
    lend_deliveries(rt, manifest, replayers);
    stop_of_replayers(replayers)
}

/// Does the tasks of a log, each by the replayer that has its receiver, in as many threads as can
/// be started. Each replayer then has its tasks' replies to clients, after its earlier replies, and
/// no task. `Damaged` has the place of the log's first task whose effects differ from the log,
/// whichever replayer finds it; `Memory`.
pub fn redo_by_workers<R: Threads + Sync, C: Chare>(
    rt: &R,
    manifest: &Manifest,
    replayers: &mut [Replayer<C>],
) -> Result<(), ReadError>
    requires { All (IsReadyToDo manifest.now) replayers.old }
    ensures ok { (worker : Elem → ℕ) (w : World) (before : ℕ) (scan : LogScan)
        (log : List (placed.Positioned logs.Logged)) → w.manifest ≡ manifest.now →
        AreDispatchedTasks worker w before scan log replayers.old →
        OnOk result ((first_failure (event_tests w before (items_of log)) ≡ None)
        × IsBeginning (world w (events_of (items_of log))) (scan_after scan (items_of log))
        × AreParts worker (world w (events_of (items_of log))).records replayers.new) }
    ensures fault { (worker : Elem → ℕ) (w : World) (before : ℕ) (scan : LogScan)
        (log : List (placed.Positioned logs.Logged)) → w.manifest ≡ manifest.now →
        AreDispatchedTasks worker w before scan log replayers.old →
        (fault : faults.Fault) → result ≡ Err (errors.Damaged fault) →
        IsFirstFault (event_tests w before (items_of log)) log fault.bytes_left }
    ensures replies { (worker : Elem → ℕ) (w : World) (before : ℕ) (scan : LogScan)
        (log : List (placed.Positioned logs.Logged)) → w.manifest ≡ manifest.now →
        AreDispatchedTasks worker w before scan log replayers.old →
        OnOk result (HaveMoreReplies worker w scan log replayers.old replayers.new) }
    ensures taken { OnOk result (AllZip (HasTaken manifest.now) replayers.old replayers.new) }
    ensures idle { All HasNoTask replayers.new }
    ensures whole { AllZip IsWhole replayers.old replayers.new }
{
    lend_tasks(rt, manifest, replayers);
    stop_of_replayers(replayers)
}
