//! Tasks and blanks that a replayer gets.

ghost use Rattle.std.specs.Prelude.{◌≡◌, ◌+◌, ◌<◌, ◌∷◌, [], IfOk, IfSome, IsSome, length, true, false};
ghost use Rattle.std.specs.BTreeMap.{is_at};
ghost use Rattle.std.specs.List.{All};
ghost use Rattle.std.specs.Map.{lookup};
ghost use Rattle.std.specs.Ordering.{nat_cmp};
ghost use Rattle.charmlet_model.specs.declared.kind.Kind as kinds;
ghost use Rattle.charmlet_shard.specs.RestoredShard.{IsHeld};
ghost use Rattle.charmlet_stock.specs.Stock.{blanks_in, keeping_of, supplied_to};
ghost use Rattle.charmlet_replayers.specs.Dispatch.Blank.{AreGivenTo, AreSameReplayers, GoesTo, HasGivenOut, HasMore, LacksBlank, list_of};
ghost use Rattle.charmlet_replayers.specs.Dispatch.Keeping.{IsDrawnFrom, IsHeldReplayer, KeepsAll};
ghost use Rattle.charmlet_replayers.specs.Dispatch.Sharing.{worker_of};

use crate::dispatch::blank::dispatch_blank;
use crate::dispatch::worker::worker_of;
use crate::replayer::Replayer;
use charmlet_chare::Chare;
use charmlet_log_scan::{ReplayWorld, Task};
use charmlet_model::Manifest;
use charmlet_stock::Stock;
use std::alloc::AllocError;

/// Gives a replayer one more task, and a blank from the stock if the log says that the task
/// constructs its receiver. `Ok(false)` if the stock has none. It fails only when out of memory.
pub fn give_task<C: Chare>(
    manifest: &Manifest,
    stock: &mut Stock<C>,
    replayer: &mut Replayer<C>,
    task: Task,
) -> Result<bool, AllocError>
    requires held { IsHeld replayer.old.restored }
    requires array { IsSome (lookup (is_at (nat_cmp task.message.to.array)) manifest.now) }
    ensures held { IsHeld replayer.new.restored }
    ensures more { IfOk result (λ done. done ≡ true →
        HasMore manifest.now (task ∷ []) replayer.old replayer.new) }
    ensures given { IfOk result (λ done. done ≡ true →
        HasGivenOut manifest.now (task ∷ []) stock.old stock.new) }
    ensures lacks { IfOk result (λ done. done ≡ false →
        LacksBlank manifest.now task stock.old) }
    ensures total { (kind : kinds.Kind) →
        supplied_to replayer.new.restored.stock kind + blanks_in stock.new kind
        ≡ supplied_to replayer.old.restored.stock kind + blanks_in stock.old kind }
    ensures supplied { (kind : kinds.Kind) →
        supplied_to stock.new kind ≡ supplied_to stock.old kind }
    ensures keeping { keeping_of stock.new ≡ keeping_of stock.old }
    ensures drawn { IsDrawnFrom stock.old stock.new }
    ensures same { IfOk result (λ done. done ≡ false →
        (stock.new ≡ stock.old) × (replayer.new ≡ replayer.old)) }
{
    if !dispatch_blank(manifest, stock, &mut replayer.restored, &task)? {
        return Ok(false);
    }
    replayer.tasks.push(task)?;
    Ok(true)
}

/// Gives one of several replayers one more task, and a blank from the stock if the log says that
/// the task constructs its receiver. `Ok(false)` if the stock has none: then nothing changes. It
/// fails only when out of memory.
fn give_one<C: Chare>(
    manifest: &Manifest,
    stock: &mut Stock<C>,
    replayers: &mut [Replayer<C>],
    worker: usize,
    task: Task,
) -> Result<bool, AllocError>
    requires held { All IsHeldReplayer replayers.old }
    requires within { worker < length replayers.old }
    requires array { IsSome (lookup (is_at (nat_cmp task.message.to.array)) manifest.now) }
    ensures keeps { KeepsAll stock.old stock.new replayers.old replayers.new }
    ensures goes { IfOk result (λ done. done ≡ true →
        GoesTo manifest.now worker task replayers.old replayers.new) }
    ensures given { IfOk result (λ done. done ≡ true →
        HasGivenOut manifest.now (task ∷ []) stock.old stock.new) }
    ensures lacks { IfOk result (λ done. done ≡ false →
        LacksBlank manifest.now task stock.old) }
    ensures same { IfOk result (λ done. done ≡ false →
        (stock.new ≡ stock.old) × AreSameReplayers replayers.old replayers.new) }
{
    give_task(manifest, stock, &mut replayers[worker], task)
}

/// Gives a task, if there is one, to the replayer that has its receiver's home, and a blank from
/// the stock if the log says that the task constructs its receiver. `Ok(false)` if the stock has
/// none: then nothing changes. It fails only when out of memory.
pub(crate) fn give_if<C: Chare>(
    world: &ReplayWorld,
    stock: &mut Stock<C>,
    replayers: &mut [Replayer<C>],
    task: Option<Task>,
) -> Result<bool, AllocError>
    requires held { All IsHeldReplayer replayers.old }
    requires some { 0 < length replayers.old }
    requires array { IfSome task (λ task.
        IsSome (lookup (is_at (nat_cmp task.message.to.array)) world.now.manifest)) }
    ensures keeps { KeepsAll stock.old stock.new replayers.old replayers.new }
    ensures goes { IfOk result (λ done. done ≡ true → AreGivenTo world.now.manifest
        (worker_of world.now.processors (length replayers.old)) task replayers.old replayers.new) }
    ensures given { IfOk result (λ done. done ≡ true →
        HasGivenOut world.now.manifest (list_of task) stock.old stock.new) }
    ensures lacks { IfOk result (λ done. done ≡ false →
        IfSome task (λ task. LacksBlank world.now.manifest task stock.old) × IsSome task) }
    ensures same { IfOk result (λ done. done ≡ false →
        (stock.new ≡ stock.old) × AreSameReplayers replayers.old replayers.new) }
{
    let Some(task) = task else {
        return Ok(true);
    };
    let worker = worker_of(task.message.to, world.processors(), replayers.len());
    give_one(world.manifest(), stock, replayers, worker, task)
}
