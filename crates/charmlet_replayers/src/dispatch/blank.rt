//! The blank for a task.

ghost use Rattle.std.specs.Prelude.{◌≡◌, ◌+◌, true, false, IfOk, IfSome, IsSome, None};
ghost use Rattle.std.specs.BTreeMap.{is_at};
ghost use Rattle.std.specs.Map.{lookup};
ghost use Rattle.std.specs.Ordering.{nat_cmp};
ghost use Rattle.charmlet_model.specs.declared.kind.Kind as kinds;
ghost use Rattle.charmlet_recovery.specs.Blanks.{array_is};
ghost use Rattle.charmlet_model.specs.declared.logged.Effect.TheVariants as effects;
ghost use Rattle.charmlet_shard.specs.RestoredShard.{IsHeld};
ghost use Rattle.charmlet_stock.specs.Stock.{blanks_in, keeping_of, part_of, supplied_to};
ghost use Rattle.charmlet_replayers.specs.Replayer.Tasks.{taken_by};
ghost use Rattle.charmlet_replayers.specs.Dispatch.Blank.{LacksBlank};
ghost use Rattle.charmlet_replayers.specs.Dispatch.Keeping.{IsDrawnFrom};

use charmlet_chare::Chare;
use charmlet_log_scan::Task;
use charmlet_model::{Effect, Kind, Manifest};
use charmlet_shard::RestoredShard;
use charmlet_stock::Stock;
use std::alloc::AllocError;

/// Gives a replayer a blank from the stock, if the log says that the task constructs its receiver.
/// `Ok(false)` if the stock has none. It fails only when out of memory.
pub fn dispatch_blank<C: Chare>(
    manifest: &Manifest,
    stock: &mut Stock<C>,
    restored: &mut RestoredShard<C>,
    task: &Task,
) -> Result<bool, AllocError>
    requires held { IsHeld restored.old }
    requires array { IsSome (lookup (is_at (nat_cmp task.now.message.to.array)) manifest.now) }
    ensures held { IsHeld restored.new }
    ensures rest { restored.new ≡ record restored.old { stock = restored.new.stock } }
    ensures dispatched { (kind : kinds.Kind) → IfOk result (λ done. done ≡ true →
        blanks_in restored.new.stock kind
        ≡ blanks_in restored.old.stock kind + taken_by manifest.now task.now kind) }
    ensures given { (kind : kinds.Kind) → IfOk result (λ done. done ≡ true →
        blanks_in stock.new kind + taken_by manifest.now task.now kind
        ≡ blanks_in stock.old kind) }
    ensures lacks { IfOk result (λ done. done ≡ false →
        LacksBlank manifest.now task.now stock.old) }
    // No object is lost: each one that went out of the stock was supplied to the replayer.
    ensures total { (kind : kinds.Kind) →
        supplied_to restored.new.stock kind + blanks_in stock.new kind
        ≡ supplied_to restored.old.stock kind + blanks_in stock.old kind }
    ensures supplied { (kind : kinds.Kind) →
        supplied_to stock.new kind ≡ supplied_to stock.old kind }
    ensures keeping { keeping_of stock.new ≡ keeping_of stock.old }
    ensures drawn { IsDrawnFrom stock.old stock.new }
    ensures same { IfOk result (λ done. done ≡ false →
        (stock.new ≡ stock.old) × (restored.new ≡ restored.old)) }
{
    let Some(kind) = kind_wanted(manifest, task) else {
        return Ok(true);
    };
    if stock.census().get(kind).in_stock == 0 {
        return Ok(false);
    }
    restored.stock.transfer_from(stock, kind, 1)?;
    Ok(true)
}

/// The kind of the object that a task constructs, as the log says.
fn kind_wanted(manifest: &Manifest, task: &Task) -> Option<Kind>
    requires { IsSome (lookup (is_at (nat_cmp task.now.message.to.array)) manifest.now) }
    ensures some { IfSome result (λ kind. (task.now.effect ≡ effects.Constructed)
        × (array_is manifest.now kind task.now.message.to.array ≡ true)
        × ((k : kinds.Kind) → taken_by manifest.now task.now k ≡ part_of kind 1 k)) }
    ensures none { result ≡ None → (k : kinds.Kind) → taken_by manifest.now task.now k ≡ 0 }
{
    match task.effect {
        Effect::Constructed => {
            let Some(kind_version) = manifest.kind_version_of(task.message.to.array) else {
                unreachable!()
            };
            Some(kind_version.kind())
        }
        _ => None,
    }
}
