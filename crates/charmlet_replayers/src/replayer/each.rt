//! The work of one replayer in its thread.

ghost use Rattle.charmlet_replayers.specs.Replayer.Replayers.{IsCaughtUpReplayer, IsReadyReplayer};
ghost use Rattle.charmlet_replayers.specs.Replayer.Tasks.{IsDoneReplayer, IsReadyToDo};

use crate::replayer::replayer::Replayer;
use crate::replayer::stops::stop_of;
use crate::replayer::tasks::redo_all;
use charmlet_chare::Chare;
use charmlet_model::Manifest;
use std::mem;

/// Repeats the deliveries of a replayer, up to the first faulty one.
pub(crate) fn catch_up_replayer<C: Chare>(manifest: &Manifest, replayer: &mut Replayer<C>)
    requires { IsReadyReplayer manifest.now replayer.old }
    ensures { IsCaughtUpReplayer manifest.now replayer.old replayer.new }
{
    let deliveries = mem::replace(&mut replayer.deliveries, Vec::new(replayer.alloc));
    replayer.stopped = stop_of(replayer.restored.catch_up(manifest, deliveries));
}

/// Does the tasks of a replayer, up to the first one whose effects differ from the log. The
/// replayer then has their replies to clients, besides its earlier replies, and no task.
pub(crate) fn redo_replayer<C: Chare>(manifest: &Manifest, replayer: &mut Replayer<C>)
    requires { IsReadyToDo manifest.now replayer.old }
    ensures { IsDoneReplayer manifest.now replayer.old replayer.new }
{
    let tasks = mem::replace(&mut replayer.tasks, Vec::new(replayer.alloc));
    replayer.stopped = stop_of(redo_all(
        &mut replayer.restored,
        manifest,
        tasks,
        &mut replayer.replies,
    ));
}
