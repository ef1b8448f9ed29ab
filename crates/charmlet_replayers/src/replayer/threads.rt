//! Parallel work of replayers, which are lent in halves to threads.

ghost use Rattle.std.specs.List.{All, AllZip};
ghost use Rattle.std.specs.Thread.{IsSync};
ghost use denote.Param.Send.{IsSend};
ghost use Rattle.charmlet_replayers.specs.Replayer.Replayers.{IsCaughtUpReplayer, IsReadyReplayer};
ghost use Rattle.charmlet_replayers.specs.Replayer.Tasks.{IsDoneReplayer, IsReadyToDo};

use crate::replayer::each::{catch_up_replayer, redo_replayer};
use crate::replayer::replayer::Replayer;
use charmlet_chare::Chare;
use charmlet_model::Manifest;
use std::thread::{Threads, join_mut};

/// Repeats the deliveries of all replayers, in as many threads as can be started. If no thread can
/// be started for a half of the replayers, the thread that lends the half does its work.
pub(crate) fn lend_deliveries<R: Threads + Sync, C: Chare>(
    rt: &R,
    manifest: &Manifest,
    replayers: &mut [Replayer<C>],
)
    requires { All (IsReadyReplayer manifest.now) replayers.old }
    ensures { AllZip (IsCaughtUpReplayer manifest.now) replayers.old replayers.new }
{
    if replayers.len() < 2 {
        if let Some(replayer) = replayers.first_mut() {
            catch_up_replayer(manifest, replayer);
        }
        return;
    }
    let (front, back) = replayers.split_at_mut(replayers.len() / 2);
    join_mut(
        rt,
        &mut ||
            requires { IsSync R.row × IsSend C.row × All (IsReadyReplayer manifest.now) front.now }
            ensures { AllZip (IsCaughtUpReplayer manifest.entry.now) front.entry.now front.exit.now }
        { lend_deliveries(rt, manifest, front) },
        &mut ||
            requires { IsSync R.row × IsSend C.row × All (IsReadyReplayer manifest.now) back.now }
            ensures { AllZip (IsCaughtUpReplayer manifest.entry.now) back.entry.now back.exit.now }
        { lend_deliveries(rt, manifest, back) },
    );
}

/// Does the tasks of all replayers, in as many threads as can be started. If no thread can be
/// started for a half of the replayers, the thread that lends the half does its work.
pub(crate) fn lend_tasks<R: Threads + Sync, C: Chare>(
    rt: &R,
    manifest: &Manifest,
    replayers: &mut [Replayer<C>],
)
    requires { All (IsReadyToDo manifest.now) replayers.old }
    ensures { AllZip (IsDoneReplayer manifest.now) replayers.old replayers.new }
{
    if replayers.len() < 2 {
        if let Some(replayer) = replayers.first_mut() {
            redo_replayer(manifest, replayer);
        }
        return;
    }
    let (front, back) = replayers.split_at_mut(replayers.len() / 2);
    join_mut(
        rt,
        &mut ||
            requires { IsSync R.row × IsSend C.row × All (IsReadyToDo manifest.now) front.now }
            ensures { AllZip (IsDoneReplayer manifest.entry.now) front.entry.now front.exit.now }
        { lend_tasks(rt, manifest, front) },
        &mut ||
            requires { IsSync R.row × IsSend C.row × All (IsReadyToDo manifest.now) back.now }
            ensures { AllZip (IsDoneReplayer manifest.entry.now) back.entry.now back.exit.now }
        { lend_tasks(rt, manifest, back) },
    );
}
