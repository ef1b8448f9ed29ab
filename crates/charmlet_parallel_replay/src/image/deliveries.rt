//! Deliveries of a catch-up list, given to their replayers.

ghost use Rattle.std.specs.Prelude.{◌≡◌, ◌<◌, ◌∷◌, [], OnOk, length, true};
ghost use Rattle.std.specs.List.{All};
ghost use Rattle.charmlet_locate.specs.Locations.{is_processor_count};
ghost use Rattle.charmlet_replayers.specs.Dispatch.Keeping.{IsHeldReplayer};
ghost use Rattle.charmlet_replayers.specs.Dispatch.Sharing.{worker_of};
ghost use Rattle.charmlet_parallel_replay.specs.Image.Given.{AreGivenOne, HasMoreDeliveries, HaveDeliveries, KeepsSupply};

use charmlet_chare::Chare;
use charmlet_model::CatchUpEntry;
use charmlet_record::Positioned;
use charmlet_replayers::{Replayer, worker_of};
use std::alloc::AllocError;

/// Gives a replayer one more delivery. It fails only when out of memory.
fn take_delivery<C: Chare>(
    replayer: &mut Replayer<C>,
    placed: Positioned<CatchUpEntry>,
) -> Result<(), AllocError>
    ensures restored { replayer.new.restored ≡ replayer.old.restored }
    ensures ok { OnOk result (HasMoreDeliveries (placed ∷ []) replayer.old replayer.new) }
{
    replayer.deliveries.push(placed)?;
    Ok(())
}

/// Gives one of several replayers one more delivery. It fails only when out of memory.
fn give_delivery<C: Chare>(
    replayers: &mut [Replayer<C>],
    worker: usize,
    placed: Positioned<CatchUpEntry>,
) -> Result<(), AllocError>
    requires held { All IsHeldReplayer replayers.old }
    requires within { worker < length replayers.old }
    ensures keeps { KeepsSupply replayers.old replayers.new }
    ensures ok { OnOk result (AreGivenOne worker placed replayers.old replayers.new) }
{
    take_delivery(&mut replayers[worker], placed)
}

/// Gives each delivery of a list to the replayer that has its receiver, in order. It fails only
/// when out of memory.
pub(crate) fn give_deliveries<C: Chare>(
    replayers: &mut [Replayer<C>],
    deliveries: Vec<Positioned<CatchUpEntry>>,
    processors: u16,
) -> Result<(), AllocError>
    requires processors { is_processor_count processors ≡ true }
    requires held { All IsHeldReplayer replayers.old }
    requires some { 0 < length replayers.old }
    ensures keeps { KeepsSupply replayers.old replayers.new }
    ensures ok { OnOk result (HaveDeliveries (worker_of processors (length replayers.old))
        deliveries.items replayers.old replayers.new) }
{
    'deliveries: for placed in deliveries {
        let worker = worker_of(placed.item.message.to, processors, replayers.len());
        give_delivery(replayers, worker, placed)?;
    }
    Ok(())
}
