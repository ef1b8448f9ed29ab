//! The survey of two halves, by reads alone.

ghost use Rattle.std.specs.Prelude.{◌≡◌, true, List, ℕ, is_ok, IfErr, IfOk};
ghost use Rattle.charmlet_model.specs.declared.half.Half.TheVariants as halves;
ghost use Rattle.charmlet_model.specs.declared.refusal.Refusal.TheVariants as refusals;
ghost use Rattle.charmlet_disk.specs.Calls.{AfterCall, IsOnlyRead};
ghost use Rattle.charmlet_image.specs.Halves.{top};
ghost use Rattle.charmlet_image.specs.Views.{beginning};
ghost use Rattle.charmlet_halves.specs.Answers.{is_finding_refusal, is_no_failure};
ghost use Rattle.charmlet_halves.specs.Bytes.{FirstGate};
ghost use Rattle.charmlet_halves.specs.Found.{Chooses, ComesLater, Finds, ContentsAre, Reads};

use crate::half_bytes::{START, has_closed_gate, read_start, read_whole};
use charmlet_disk::{DeviceFault, Disk};
use charmlet_image::{
    Beginning, HalfView, Header, KnownLog, OpenHalf, read_half, read_top, reread_half,
};
use charmlet_model::{Half, Refusal};
use std::alloc::{AllocError, Global};

/// The offset of a header's generation.
const GENERATION: u64 = 5;

/// The contents of an open half.
#[derive(Clone, Copy, Debug, PartialEq, Eq)]
pub struct Contents {
    /// The half's mark, its generation, how many events came before its image, and the image's
    /// length in bytes.
    pub header: Header,
    /// How many events are in its open batches.
    pub logged: u64,
    /// The place in bytes of the closed gate after its last batch.
    pub log_end: u64,
}

/// The result of a survey of two halves: the taken half, its contents, and all of its bytes.
#[derive(Drop)]
pub struct Surveyed {
    pub half: Half,
    pub contents: Contents,
    pub bytes: Vec<u8>,
    /// The other half has a first gate, and it is closed.
    pub(crate) spare_closed: bool,
}

impl Surveyed {
    ghost use Rattle.std.specs.Prelude.{IfOk};
    ghost use Rattle.charmlet_image.specs.declared.half.HalfView.TheVariants as views;
    ghost use Rattle.charmlet_image.specs.Views.{HalfIs};
    ghost use Rattle.charmlet_halves.specs.Found.{Reads};

    /// The contents of the taken half, read again from its bytes. Its log isn't scanned again. It
    /// fails only when out of memory.
    pub fn reread(&self, alloc: Global) -> Result<OpenHalf<'_>, AllocError>
        requires { Reads self.now }
        ensures { IfOk result (λ half. HalfIs self.now.bytes.items (views.Open half)) }
    {
        let known = KnownLog {
            events: self.contents.logged,
            ends: self.contents.log_end,
        };
        reread_half(alloc, self.bytes.as_slice(), known)
    }
}

/// What the first bytes of a half show.
#[derive(Clone, Copy)]
struct Look {
    beginning: Beginning,
    is_closed: bool,
}

/// Looks at the first bytes of a half. It makes two calls of the disk, which change nothing.
fn look_at<D: Disk>(disk: &mut D, half: Half) -> Result<Look, DeviceFault>
    ensures beginning { D.honest disk.old →
        IfOk result (λ look. look.beginning ≡ beginning (top (D.file disk.old half).now)) }
    ensures gate { D.honest disk.old →
        IfOk result (λ look. FirstGate look.is_closed (D.file disk.old half).now) }
    ensures only_read { D.honest disk.old → IsOnlyRead D.Disk disk.old disk.new }
    ensures disk { AfterCall D.Disk disk.old disk.new (is_ok result) }
{
    let mut start = [0; START];
    let size = read_start(disk, half, &mut start)?;
    let first = &start[..size];
    let beginning = read_top(first);
    let is_closed = has_closed_gate(first);
    Ok(Look {
        beginning,
        is_closed,
    })
}

/// The refusal of a half whose bytes at an offset break the format.
fn damaged(half: Half, offset: u64) -> Refusal
    ensures { result ≡ refusals.Damaged half offset }
{
    Refusal::Damaged { half, offset }
}

/// Chooses the half that is taken of two halves with these beginnings. If both are open, it is the
/// later one, and their generations have to be consecutive. `Damaged` at the header of either, half
/// 0 first, or at the generation of half 1; `NothingHere` if neither is open.
fn choose(zero: Beginning, one: Beginning) -> Result<Half, Refusal>
    ensures no_failure { is_no_failure result ≡ true }
    ensures err { IfErr result (λ refusal. is_finding_refusal refusal ≡ true) }
    ensures chosen { (first second : List ℕ) → zero ≡ beginning (top first) →
        one ≡ beginning (top second) → Chooses first second result }
{
    match zero {
        Beginning::Damaged(offset) => Err(damaged(Half::Zero, offset)),
        Beginning::Closed => match one {
            Beginning::Damaged(offset) => Err(damaged(Half::One, offset)),
            Beginning::Closed => Err(Refusal::NothingHere),
            Beginning::Open(_) => Ok(Half::One),
        },
        Beginning::Open(first) => match one {
            Beginning::Damaged(offset) => Err(damaged(Half::One, offset)),
            Beginning::Closed => Ok(Half::Zero),
            Beginning::Open(second) => later(&first, &second),
        },
    }
}

/// The later of two open halves, whose generations have to be consecutive.
fn later(first: &Header, second: &Header) -> Result<Half, Refusal>
    ensures { ComesLater first.now second.now result }
{
    if second.generation > first.generation && second.generation - first.generation == 1 {
        Ok(Half::One)
    } else if first.generation > second.generation && first.generation - second.generation == 1 {
        Ok(Half::Zero)
    } else {
        Err(damaged(Half::One, GENERATION))
    }
}

/// The contents of the taken half, by its bytes.
fn contents_of(alloc: Global, half: Half, bytes: &[u8]) -> Result<Contents, Refusal>
    ensures contents { ContentsAre half bytes.now result }
    ensures err { IfErr result (λ refusal. is_finding_refusal refusal ≡ true) }
{
    match read_half(alloc, bytes)? {
        HalfView::Open(open) => Ok(Contents {
            header: open.header,
            logged: open.log.events,
            log_end: open.log.ends,
        }),
        HalfView::Closed => Err(Refusal::NothingHere),
        HalfView::Damaged(offset) => Err(damaged(half, offset)),
    }
}

/// Surveys two halves by reads alone, and finds the contents of the taken one. If both are open,
/// the half with the greater generation is taken; only the header of the other half is read.
/// `Damaged` names the first field that breaks the format: in the headers of half 0 and half 1;
/// then the generation of half 1, if both are open and their generations aren't consecutive; then
/// in the rest of the taken half. `NothingHere` if neither half is open; `Memory`; `Device`.
pub fn survey<D: Disk>(alloc: Global, disk: &mut D) -> Result<Surveyed, Refusal>
    ensures finds { D.honest disk.old → Finds (D.file disk.old halves.Zero).now
        (D.file disk.old halves.One).now result }
    ensures reads { IfOk result Reads }
    ensures err { IfErr result (λ refusal. is_finding_refusal refusal ≡ true) }
    ensures only_read { D.honest disk.old → IsOnlyRead D.Disk disk.old disk.new }
    ensures disk { AfterCall D.Disk disk.old disk.new (is_no_failure result) }
{
    let zero = look_at(disk, Half::Zero)?;
    let one = look_at(disk, Half::One)?;
    let half = choose(zero.beginning, one.beginning)?;
    let bytes = read_whole(alloc, disk, half)?;
    let spare_closed = match half {
        Half::Zero => one.is_closed,
        Half::One => zero.is_closed,
    };
    let contents = contents_of(alloc, half, bytes.as_slice())?;
    Ok(Surveyed {
        half,
        contents,
        bytes,
        spare_closed,
    })
}
