//! The replay of a taken half by several replayers, which becomes a store again.

ghost use Rattle.std.specs.Prelude.{◌≡◌, ◌+◌, ◌-◌, ℕ, [], List, IfErr, IfOk, length, true};
ghost use Rattle.std.specs.List.{All};
ghost use Rattle.charmlet_image.specs.Images.{Saved};
ghost use Rattle.charmlet_locate.specs.Locations.{is_processor_count};
ghost use Rattle.charmlet_model.specs.declared.kind.Kind as kinds;
ghost use Rattle.charmlet_record.specs.declared.reader.Fault as faults;
ghost use Rattle.charmlet_record.specs.declared.reader.ReadError.TheVariants as errors;
ghost use Rattle.charmlet_recovery.specs.Blanks.{wanted};
ghost use Rattle.charmlet_recovery.specs.RestartLaws.{IsEnough};
ghost use Rattle.charmlet_recovery.specs.Restarts.{wanted_of};
ghost use Rattle.charmlet_stock.specs.ByKind.{for_all};
ghost use Rattle.charmlet_stock.specs.Stock.{blanks_in, keeping_of, supplied_to};
ghost use Rattle.charmlet_stock.specs.Absorption.Absorbed.{retired_in};
ghost use Rattle.charmlet_store.specs.Store.{supplied_in};
ghost use Rattle.charmlet_replay.specs.Replayed.{IsFaultAt, IsOpenIn, IsRepeated, IsReplayed};
ghost use Rattle.charmlet_replay.specs.Unused.{IsUnused};
ghost use Rattle.charmlet_parallel_replay.specs.declared.log.replay_error.ReplayError.TheVariants.{OutOfBlanks, Read};
ghost use Rattle.charmlet_replayers.specs.Dispatch.Keeping.{IsHeldReplayer};
ghost use Rattle.charmlet_parallel_replay.specs.Combined.{drawn_by_replayers};

use crate::half::redo_half;
use crate::image::empty_replayers;
use crate::log::ReplayError;
use charmlet_chare::Chare;
use charmlet_history::{GhostWorld, HasWorld};
use charmlet_image::{ImageView, LogView, OpenHalf};
use charmlet_merge::{NotBuilt, build_store, reclaim_objects, upgrade_store};
use charmlet_record::ReadError;
use charmlet_replay::Replayed;
use charmlet_replayers::Replayer;
use charmlet_stock::Stock;
use charmlet_store::{Store, empty_shelves};
use std::alloc::Global;
use std::thread::Threads;

/// The error of refused memory.
const MEMORY: ReplayError = ReplayError::Read(ReadError::Memory);

/// Why several replayers restored no half, and all objects that were handed in, as blanks, in
/// whatever state.
#[derive(Drop)]
pub struct NotRepeated<C: Chare> {
    pub why: ReplayError,
    pub blanks: Stock<C>,
}

/// The world of a half, for contracts alone.
#[derive(Drop)]
struct Given<'a, 'b, 'c> {
    image: &'a ImageView<'b>,
    log: &'a LogView<'c>,
}

impl HasWorld for Given<'_, '_, '_> {
    ghost use Rattle.charmlet_image.specs.Views.{image_said};
    ghost use Rattle.charmlet_recovery.specs.Bases.{recovered_world};
    ghost use Rattle.charmlet_replay.specs.Places.{events_in};

    ghost world = { λ g. recovered_world (image_said g.image.now)
        (events_in g.image.now.manifest g.log.now.rest.now) };
}

/// Refuses a half, with all objects of the replayers, and those that are left, as blanks again. It
/// takes no memory.
fn refuse<C: Chare>(
    why: ReplayError,
    replayers: Vec<Replayer<C>>,
    stock: Stock<C>,
) -> NotRepeated<C>
    requires held { All IsHeldReplayer replayers.items }
    requires shared { (kind : kinds.Kind) → supplied_to stock kind
        ≡ drawn_by_replayers replayers.items kind + blanks_in stock kind + retired_in stock kind }
    requires keeping { keeping_of stock ≡ for_all true }
    ensures why { result.why ≡ why }
    ensures unused { IsUnused result.blanks }
    ensures supplied { (kind : kinds.Kind) → supplied_to result.blanks kind
        ≡ supplied_to stock kind }
{
    NotRepeated {
        why,
        blanks: reclaim_objects(replayers, stock),
    }
}

/// Opens the store of an open half by several replayers, in the kind versions that are written
/// there. The refusals, and what comes back then, are those of [`replay_by`].
fn repeat_by<R: Threads + Sync, C: Chare>(
    rt: &R,
    alloc: Global,
    half: OpenHalf<'_>,
    blanks: Stock<C>,
    processors: u16,
    workers: u16,
) -> Result<Store<C>, NotRepeated<C>>
    requires half { (bytes : List ℕ) × (s : Saved) × IsOpenIn bytes s half
        × IsEnough (blanks_in blanks) (wanted s.image []) }
    requires processors { is_processor_count processors ≡ true }
    requires workers { is_processor_count workers ≡ true }
    requires unused { IsUnused blanks }
    ensures ok { (bytes : List ℕ) (s : Saved) → IsOpenIn bytes s half.entry →
        IfOk result (IsRepeated processors (blanks_in blanks) s) }
    ensures supplied { IfOk result (λ store. supplied_in store ≡ supplied_to blanks) }
    ensures keeping { IfOk result (λ store. store.keeping ≡ for_all true) }
    ensures fault { (bytes : List ℕ) (s : Saved) → IsOpenIn bytes s half.entry →
        IfErr result (λ refused. (fault : faults.Fault) →
        refused.why ≡ Read (errors.Damaged fault) → IsFaultAt s (length bytes - fault.bytes_left)) }
    ensures lack { (bytes : List ℕ) (s : Saved) → IsOpenIn bytes s half.entry →
        IfErr result (λ refused. refused.why ≡ OutOfBlanks →
        IsEnough (blanks_in blanks) (wanted_of s) → ⊥) }
    ensures back { IfErr result (λ refused. IsUnused refused.blanks) }
    ensures kept { IfErr result (λ refused. supplied_to refused.blanks ≡ supplied_to blanks) }
{
    let OpenHalf { header, image, log } = half;
    let seen = GhostWorld::of(&Given {
        image: &image,
        log: &log,
    });
    let mut stock = blanks;
    stock.keep_retired();
    let Ok(mut replayers) = empty_replayers(alloc, processors, workers) else {
        return Err(refuse(MEMORY, Vec::new(alloc), stock));
    };
    let Ok(shelves) = empty_shelves(alloc, processors) else {
        return Err(refuse(MEMORY, replayers, stock));
    };
    let done = redo_half(
        rt,
        alloc,
        &mut stock,
        replayers.as_mut_slice(),
        &header,
        image,
        &log,
        processors,
    );
    match done {
        Ok((manifest, kept)) => {
            let count = header.events + log.events;
            let joined = build_store(
                alloc,
                seen,
                manifest,
                &kept,
                replayers,
                shelves,
                stock,
                count,
                header.generation,
                log.ends,
            );
            match joined {
                Ok(store) => Ok(store),
                Err(NotBuilt { replayers, stock }) => Err(refuse(MEMORY, replayers, stock)),
            }
        }
        Err(why) => Err(refuse(why, replayers, stock)),
    }
}

/// Opens the store of an open half, on this number of processors, as [`charmlet_replay::replay`]
/// does, by `workers` replayers. Replayer w has the elements of the processors p with p mod workers
/// = w, and restores them in as many threads as can be started. The result is the same for any
/// number of replayers.
///
/// There have to be enough blanks for the half's image. Whether they suffice for its log too isn't
/// known before: `OutOfBlanks` if none is left for an event that, as the log says, constructs its
/// receiver.
///
/// `Damaged` has the place of the first record that can't be or isn't what the objects do: in the
/// catch-up list, otherwise among the pending messages, otherwise in the log, whichever replayer
/// finds it. `Memory`. In each case all objects come back, as blanks of the stock, in whatever
/// state.
pub fn replay_by<R: Threads + Sync, C: Chare>(
    rt: &R,
    alloc: Global,
    half: OpenHalf<'_>,
    blanks: Stock<C>,
    processors: u16,
    workers: u16,
) -> Result<Replayed<C>, NotRepeated<C>>
    requires half { (bytes : List ℕ) × (s : Saved) × IsOpenIn bytes s half
        × IsEnough (blanks_in blanks) (wanted s.image []) }
    requires processors { is_processor_count processors ≡ true }
    requires workers { is_processor_count workers ≡ true }
    requires unused { IsUnused blanks }
    ensures ok { (bytes : List ℕ) (s : Saved) → IsOpenIn bytes s half.entry →
        IfOk result (IsReplayed processors (blanks_in blanks) s) }
    ensures supplied { IfOk result (λ back. supplied_in back.store ≡ supplied_to blanks) }
    ensures keeping { IfOk result (λ back. back.store.keeping ≡ for_all true) }
    ensures fault { (bytes : List ℕ) (s : Saved) → IsOpenIn bytes s half.entry →
        IfErr result (λ refused. (fault : faults.Fault) →
        refused.why ≡ Read (errors.Damaged fault) → IsFaultAt s (length bytes - fault.bytes_left)) }
    ensures lack { (bytes : List ℕ) (s : Saved) → IsOpenIn bytes s half.entry →
        IfErr result (λ refused. refused.why ≡ OutOfBlanks →
        IsEnough (blanks_in blanks) (wanted_of s) → ⊥) }
    ensures back { IfErr result (λ refused. IsUnused refused.blanks) }
    ensures kept { IfErr result (λ refused. supplied_to refused.blanks ≡ supplied_to blanks) }
{
    match repeat_by(rt, alloc, half, blanks, processors, workers) {
        Ok(store) => Ok(upgrade_store(store)),
        Err(refused) => Err(refused),
    }
}
