//! The half that isn't taken, by the beginnings of both.

ghost use Rattle.std.specs.Prelude.{◌≡◌, ◌≤◌, List, ℕ, IfOk, is_ok, take};
ghost use Rattle.charmlet_model.specs.declared.half.Half.TheVariants as halves;
ghost use Rattle.charmlet_disk.specs.Calls.{AfterCall, IsOnlyRead};
ghost use Rattle.charmlet_cli.specs.Spare.{judged, judged_both, spare_in, start_in};

use charmlet_disk::{DeviceFault, Disk};
use charmlet_image::{Beginning, HEADER_SIZE, read_top};
use charmlet_model::Half;

/// How many bytes a half has from its first gate to the end of its header.
const START: usize = 1 + HEADER_SIZE;

/// The facts about the half that isn't taken which an operator should know.
#[derive(Clone, Copy, Debug, PartialEq, Eq)]
pub enum Spare {
    /// Nothing: it has no header, or one of an earlier generation; or no half is taken.
    Sound,
    /// The half is closed, and its header has a later generation than the taken half's: a
    /// checkpoint was cut off before it replaced the taken half, or the first byte changed since.
    Later { half: Half, generation: u64 },
    /// The half breaks the format at this offset, in its first byte or its header: its writing was
    /// cut off, or it changed since.
    Damaged { half: Half, offset: u64 },
}

/// The beginning of a half, as it is, and as it would be with an open first gate.
#[derive(Clone, Copy)]
pub struct Start {
    /// The first byte, which is 0 if there is none.
    gate: u8,
    beginning: Beginning,
    behind: Beginning,
}

/// Reads the first 25 bytes of a half into `start`, or all of it if it has fewer, and returns how
/// many it read. It makes two calls of the disk, which change nothing.
fn read_start<D: Disk>(
    disk: &mut D,
    half: Half,
    start: &mut [u8; START],
) -> Result<usize, DeviceFault>
    ensures read { D.honest disk.old → IfOk result (λ size. take size start.new ≡ take 25
        (D.file disk.old half).now) }
    ensures few { IfOk result (λ size. size ≤ 25) }
    ensures only_read { D.honest disk.old → IsOnlyRead D.Disk disk.old disk.new }
    ensures disk { AfterCall D.Disk disk.old disk.new (is_ok result) }
{
    let length = disk.len(half)?;
    let size = (START as u64).min(length) as usize;
    disk.read_at(half, 0, &mut start[..size])?;
    Ok(size)
}

/// The beginning of a half with these first bytes. It opens the first gate in these bytes.
fn start_of(first: &mut [u8]) -> Start
    ensures { (bytes : List ℕ) → first.old ≡ take 25 bytes → result ≡ start_in bytes }
{
    if first.is_empty() {
        return Start {
            gate: 0,
            beginning: Beginning::Closed,
            behind: Beginning::Closed,
        };
    }
    let gate = first[0];
    let beginning = read_top(first);
    first[0] = 1;
    let behind = read_top(first);
    Start {
        gate,
        beginning,
        behind,
    }
}

/// Looks at the beginning of a half. It makes two calls of the disk, which change nothing.
fn look_at<D: Disk>(disk: &mut D, half: Half) -> Result<Start, DeviceFault>
    ensures start { D.honest disk.old →
        IfOk result (λ start. start ≡ start_in (D.file disk.old half).now) }
    ensures only_read { D.honest disk.old → IsOnlyRead D.Disk disk.old disk.new }
    ensures disk { AfterCall D.Disk disk.old disk.new (is_ok result) }
{
    let mut first = [0; START];
    let size = read_start(disk, half, &mut first)?;
    Ok(start_of(&mut first[..size]))
}

/// Judges the half that isn't taken, beside a taken one of this generation.
fn judged(half: Half, start: Start, generation: u64) -> Spare
    ensures { result ≡ judged half start generation }
{
    if start.gate > 1 {
        return Spare::Damaged { half, offset: 0 };
    }
    match start.behind {
        Beginning::Damaged(offset) => Spare::Damaged { half, offset },
        Beginning::Open(header) if header.generation > generation => Spare::Later {
            half,
            generation: header.generation,
        },
        Beginning::Open(_) | Beginning::Closed => Spare::Sound,
    }
}

/// Judges the half that isn't taken, if one half is taken and the other one is closed.
fn judged_both(zero: Start, one: Start) -> Spare
    ensures { result ≡ judged_both zero one zero.beginning one.beginning }
{
    match (zero.beginning, one.beginning) {
        (Beginning::Open(taken), Beginning::Closed) => judged(Half::One, one, taken.generation),
        (Beginning::Closed, Beginning::Open(taken)) => judged(Half::Zero, zero, taken.generation),
        _ => Spare::Sound,
    }
}

/// Looks at the half that isn't taken, for the facts that an operator should know. It makes at most
/// four calls of the disk, which change nothing.
pub fn look_at_spare<D: Disk>(disk: &mut D) -> Result<Spare, DeviceFault>
    ensures spare { D.honest disk.old → IfOk result (λ spare. spare
        ≡ spare_in (D.file disk.old halves.Zero).now (D.file disk.old halves.One).now) }
    ensures only_read { D.honest disk.old → IsOnlyRead D.Disk disk.old disk.new }
    ensures disk { AfterCall D.Disk disk.old disk.new (is_ok result) }
{
    let zero = look_at(disk, Half::Zero)?;
    let one = look_at(disk, Half::One)?;
    Ok(judged_both(zero, one))
}
