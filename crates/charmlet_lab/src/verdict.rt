//! The verdict whether a restarted store has a world of its run.

ghost use Rattle.std.specs.Prelude.{◌≡◌, ◌↔◌, ◌≤◌, false, true, length, take, IfErr, IfOk, OnOk};
ghost use Rattle.charmlet_model.specs.KindVersion.{AreNewest};
ghost use Rattle.charmlet_model.specs.Fit.{IsFit};
ghost use Rattle.charmlet_model.specs.Sound.{new_world};
ghost use Rattle.charmlet_model.specs.World.{IsLegal, world};
ghost use Rattle.charmlet_persist.specs.Snapshot.Showing.{IsRefusal};
ghost use Rattle.charmlet_engine.specs.Engine.{core_of, world_of};
ghost use Rattle.charmlet_engine.specs.Restarted.{core_or_refusal};
ghost use Rattle.charmlet_lab.specs.Judged.{HasFirst, IsAsBefore, IsGood, IsNotJudged, IsSameEngine};
ghost use Rattle.charmlet_lab.specs.Restarts.{IsKnown};
ghost use Rattle.charmlet_lab.specs.Rounds.{arrays_of};

use crate::same::is_same_world;
use charmlet_chare::Chare;
use charmlet_disk::Disk;
use charmlet_engine::{Engine, NotRestarted};
use charmlet_model::{Event, Refusal};
use charmlet_reference::{PlainWorld, Recovered, recover};
use charmlet_script::Script;
use std::alloc::{AllocError, Global};

/// The byte of an open gate.
const OPEN: u8 = 1;

/// Judges whether a restart after a run's crash is bad. It is bad if it was refused, unless by
/// `NothingHere` if the store wasn't reported as made; or if the store lacks events that were
/// durable, or doesn't have the world after the first events of the run, as many as it counts. A
/// plain program that knows no files computes that world. The engine is unchanged. Its arrays have
/// to have the newest versions of their kinds, as they do after a restart.
///
/// `Memory` if out of memory; `ImageFull` if an image of the store, from which its world is read,
/// would pass a limit. A restart that was itself refused by `Memory` or `Device` isn't judged,
/// since that says nothing of the files: its refusal is handed on.
pub fn lab_bad<D: Disk, C: Chare>(
    alloc: Global,
    script: &Script,
    answer: &mut Result<Engine<D, C>, NotRestarted<D, C>>,
    events: &[Event],
    durable: Option<u64>,
) -> Result<bool, Refusal>
    requires newest { IfOk answer.old (λ engine. AreNewest (world_of engine).manifest) }
    requires legal { IsLegal (new_world (arrays_of script.now)) 0 events.now }
    ensures ok { IfOk result (λ bad. (bad ≡ false)
        ↔ IsGood (arrays_of script.now) events.now durable (core_or_refusal answer.old)) }
    ensures known { IfOk result (λ _. IsKnown (core_or_refusal answer.old)) }
    ensures err { IfErr result (IsNotJudged (core_or_refusal answer.old)) }
    ensures same { IsAsBefore answer.old answer.new }
{
    match answer {
        Ok(engine) => {
            let is_good = has_first(alloc, script, engine, events, durable.unwrap_or(0))?;
            Ok(!is_good)
        }
        Err(refused) => match refused.refusal {
            Refusal::Memory => Err(Refusal::Memory),
            Refusal::Device => Err(Refusal::Device),
            refusal => Ok(durable.is_some() || refusal != Refusal::NothingHere),
        },
    }
}

/// Whether a store has the world after the first of these events, as many as it counts and at least
/// `durable` of them. Its arrays have to have the newest versions of their kinds.
fn has_first<D: Disk, C: Chare>(
    alloc: Global,
    script: &Script,
    engine: &mut Engine<D, C>,
    events: &[Event],
    durable: u64,
) -> Result<bool, Refusal>
    requires newest { AreNewest (world_of engine.old).manifest }
    requires legal { IsLegal (new_world (arrays_of script.now)) 0 events.now }
    ensures ok { IfOk result (λ good.
        (good ≡ true) ↔ HasFirst (arrays_of script.now) events.now durable (core_of engine.old)) }
    ensures err { IfErr result (IsRefusal (core_of engine.old)) }
    ensures same { IsSameEngine engine.old engine.new }
{
    let count = engine.event_count();
    if count < durable || count > events.len() as u64 {
        return Ok(false);
    }
    let wanted = world_after(alloc, script, &events[..count as usize])?;
    let found = world_in(alloc, engine)?;
    Ok(is_same_world(alloc, &found, &wanted)?)
}

/// The world after these events. It fails only when out of memory.
fn world_after(alloc: Global, script: &Script, events: &[Event]) -> Result<PlainWorld, AllocError>
    requires { IsLegal (new_world (arrays_of script.now)) 0 events.now }
    ensures is { IfOk result (λ plain. plain
        ≡ world (new_world (arrays_of script.now)) events.now) }
    ensures fit { IfOk result (λ plain. IsFit plain) }
{
    let manifest = script.manifest(alloc)?;
    manifest.facts();
    let mut plain = PlainWorld::new(alloc, manifest);
    for event in events {
        plain.after(event)?;
    }
    Ok(plain)
}

/// The world of a store, which the plain program reads from its image and brings forward to the
/// newest versions: so its arrays have to have these. `Memory` if out of memory; `ImageFull` if the
/// store is too large for an image. The engine is unchanged.
fn world_in<D: Disk, C: Chare>(
    alloc: Global,
    engine: &mut Engine<D, C>,
) -> Result<PlainWorld, Refusal>
    requires newest { AreNewest (world_of engine.old).manifest }
    ensures is { IfOk result (λ plain. plain ≡ world_of engine.old) }
    ensures fit { IfOk result (λ plain. IsFit plain) }
    ensures err { IfErr result (IsRefusal (core_of engine.old)) }
    ensures same { IsSameEngine engine.old engine.new }
{
    engine.facts();
    let image = engine.image()?;
    let mut half = Vec::with_capacity(alloc, image.len() + 1)?;
    half.push(OPEN)?;
    half.extend_from_slice(&image)?;
    match recover(alloc, &half, &[])? {
        Recovered::Found { world, .. } => Ok(world),
        _ => unreachable!(),
    }
}
