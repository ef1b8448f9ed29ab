//! What two files recover to.

ghost use Rattle.std.specs.Prelude.{◌≡◌, ◌≤◌, ◌^◌, ℕ, List, IfOk, slice_index};
ghost use Rattle.charmlet_image.specs.Halves.{found, taken, taken_half, top};
ghost use Rattle.charmlet_image.specs.Images.{Saved};
ghost use Rattle.charmlet_image.specs.Views.{beginning};
ghost use Rattle.charmlet_recovery.specs.Recovered.{recovered, recovered_by};
ghost use Rattle.charmlet_reference.specs.Recovery.Parts.{AreParts, offset_at};
ghost use Rattle.charmlet_reference.specs.Recovery.Views.{IsChoice, files, later_choice, seen};
ghost use Rattle.charmlet_reference.specs.Recovery.Written.{as_written_from, gone_on, meaning_as_written, recovered_as_written};

use crate::PlainWorld;
use crate::recovery::parts::{Offsets, Parts, parts_of};
use crate::recovery::replayed::{Meaning, Place, replay};
use charmlet_image::{Beginning, HalfView, Header, read_half, read_top};
use charmlet_model::Half;
use std::alloc::{AllocError, Global};

/// How many bytes of a half its gate and its header take.
const TOP_SIZE: usize = 25;

/// The offset of the generation in a half.
const GENERATION_BEGINS: u64 = 5;

/// What two files recover to.
#[derive(Debug, Drop)]
pub enum Recovered {
    /// Both halves are closed.
    Nothing,
    /// A half is damaged: its first faulty field or record begins at this offset.
    Damaged {
        half: Half,
        offset: u64,
    },
    /// A world, how many events led to it, and the generation of the taken image.
    Found {
        world: PlainWorld,
        events: u64,
        generation: u64,
    },
}

/// What the bytes of two files recover to, for all bytes. A world that is found is brought forward
/// to the newest versions of its kinds. It fails only when out of memory.
pub fn recover(alloc: Global, zero: &[u8], one: &[u8]) -> Result<Recovered, AllocError>
    ensures { IfOk result (λ r. seen r ≡ recovered (files zero.now one.now)) }
{
    let written = recover_as_written(alloc, zero, one)?;
    Ok(gone_on(written))
}

/// Brings a world that is found forward to the newest versions of its kinds.
fn gone_on(written: Recovered) -> Recovered
    ensures { seen result ≡ gone_on (seen written) }
{
    match written {
        Recovered::Nothing => Recovered::Nothing,
        Recovered::Damaged { half, offset } => Recovered::Damaged { half, offset },
        Recovered::Found {
            world,
            events,
            generation,
        } => {
            let mut world = world;
            world.upgrade();
            Recovered::Found {
                world,
                events,
                generation,
            }
        }
    }
}

/// What the bytes of two files recover to, for all bytes, in the kind versions that are written
/// there. It fails only when out of memory.
#[tactic(auto, unfolding(crate::specs::Recovery::Written::recovered_as_written))]
pub fn recover_as_written(alloc: Global, zero: &[u8], one: &[u8]) -> Result<Recovered, AllocError>
    ensures { IfOk result (λ r. seen r ≡ recovered_as_written (files zero.now one.now)) }
{
    match choose(top_of(zero), top_of(one)) {
        Choice::Neither => Ok(Recovered::Nothing),
        Choice::Damaged(half, offset) => Ok(Recovered::Damaged { half, offset }),
        Choice::Take(Half::Zero) => recover_half(alloc, Half::Zero, zero),
        Choice::Take(Half::One) => recover_half(alloc, Half::One, one),
    }
}

/// The half that is taken of two, or why none is.
enum Choice {
    Neither,
    Take(Half),
    Damaged(Half, u64),
}

/// How a half begins.
fn top_of(bytes: &[u8]) -> Beginning
    ensures { result ≡ beginning (top bytes.now) }
{
    if bytes.len() <= TOP_SIZE {
        return read_top(bytes);
    }
    read_top(&bytes[..TOP_SIZE])
}

/// Chooses the half that is taken of two halves with these beginnings. A fault in a header comes
/// first; of two open halves the later one is taken, if their generations are consecutive.
fn choose(zero: Beginning, one: Beginning) -> Choice
    ensures { (first second : List ℕ) → zero ≡ beginning (top first) → one ≡ beginning (top second)
        →
        IsChoice first second result }
{
    match zero {
        Beginning::Damaged(offset) => Choice::Damaged(Half::Zero, offset),
        Beginning::Closed => match one {
            Beginning::Damaged(offset) => Choice::Damaged(Half::One, offset),
            Beginning::Closed => Choice::Neither,
            Beginning::Open(_) => Choice::Take(Half::One),
        },
        Beginning::Open(header) => match one {
            Beginning::Damaged(offset) => Choice::Damaged(Half::One, offset),
            Beginning::Closed => Choice::Take(Half::Zero),
            Beginning::Open(other) => later(header, other),
        },
    }
}

/// The later of two open halves with these headers, if their generations are consecutive.
fn later(zero: Header, one: Header) -> Choice
    ensures { result ≡ later_choice zero one }
{
    if zero.generation.checked_add(1) == Some(one.generation) {
        return Choice::Take(Half::One);
    }
    if one.generation.checked_add(1) == Some(zero.generation) {
        return Choice::Take(Half::Zero);
    }
    Choice::Damaged(Half::One, GENERATION_BEGINS)
}

/// What a taken half recovers to, in the kind versions that are written there. It fails only when
/// out of memory.
fn recover_half(alloc: Global, half: Half, bytes: &[u8]) -> Result<Recovered, AllocError>
    ensures { IfOk result (λ r. seen r ≡ as_written_from (taken_half half (found bytes.now))) }
{
    match read_half(alloc, bytes)? {
        HalfView::Closed => Ok(Recovered::Nothing),
        HalfView::Damaged(offset) => Ok(Recovered::Damaged { half, offset }),
        HalfView::Open(open) => {
            let parts = parts_of(alloc, bytes, open)?;
            recover_parts(alloc, half, parts)
        }
    }
}

/// What the parts of a half recover to, in the kind versions that are written there. It fails only
/// when out of memory.
fn recover_parts(alloc: Global, half: Half, parts: Parts) -> Result<Recovered, AllocError>
    requires { parts.before ≤ 2 ^ 40 }
    ensures { (s : Saved) → AreParts s parts → IfOk result (λ r. seen r ≡ recovered_by half s
        (meaning_as_written s)) }
{
    let Parts {
        generation,
        before,
        image,
        caught_up,
        log,
        offsets,
    } = parts;
    match replay(alloc, image, caught_up.as_slice(), before, log.as_slice())? {
        Meaning::Whole(world, events) => Ok(Recovered::Found {
            world,
            events,
            generation,
        }),
        Meaning::Faulty(place) => {
            let offset = offset_of(&offsets, place);
            Ok(Recovered::Damaged { half, offset })
        }
    }
}

/// The offset of the record at a place, or 0 if there is none.
fn offset_of(offsets: &Offsets, place: Place) -> u64
    ensures { result ≡ offset_at offsets.now place }
{
    match place {
        Place::InCatchUp(i) => number_at(offsets.caught_up.as_slice(), i),
        Place::InPending(i) => number_at(offsets.pending.as_slice(), i),
        Place::InEvents(i) => number_at(offsets.events.as_slice(), i),
    }
}

/// The number at a place, or 0 if there is none.
fn number_at(numbers: &[u64], place: usize) -> u64
    ensures { result ≡ slice_index numbers.now place }
{
    if place < numbers.len() {
        numbers[place]
    } else {
        0
    }
}
