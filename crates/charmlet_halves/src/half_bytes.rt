//! The first bytes of a half, which are read before the rest.

ghost use Rattle.std.specs.Prelude.{◌≡◌, ◌⊎◌, ◌≤◌, List, ℕ, take, is_ok, IfOk, IfErr, Err};
ghost use Rattle.charmlet_disk.specs.Calls.{AfterCall, IsOnlyRead};
ghost use Rattle.charmlet_model.specs.declared.refusal.Refusal.TheVariants as refusals;
ghost use Rattle.charmlet_halves.specs.Answers.{is_no_failure};
ghost use Rattle.charmlet_image.specs.Spelled.{IsClosed};
ghost use Rattle.charmlet_halves.specs.Bytes.{FirstGate, IsOpen};
ghost use Rattle.charmlet_halves.specs.Gates.{GateIs};

use crate::writes::OPEN;
use charmlet_disk::{DeviceFault, Disk};
use charmlet_model::{Half, Refusal};
use std::alloc::Global;

/// How many bytes a half has from its first gate to the end of its header.
pub(crate) const START: usize = 25;

/// The state of a half's first gate.
#[derive(Clone, Copy)]
pub(crate) enum Gate {
    /// The gate is open, and more stands after it.
    Open,
    /// The gate is closed.
    Closed,
    /// There is no gate, or an open one and nothing after it.
    Alone,
}

/// Reads the first 25 bytes of a half into `start`, or all of it if it has fewer, and returns how
/// many it read. It makes two calls of the disk, which change nothing.
pub(crate) fn read_start<D: Disk>(
    disk: &mut D,
    half: Half,
    start: &mut [u8; START],
) -> Result<usize, DeviceFault>
    ensures read { D.honest disk.old → IfOk result (λ size. take size start.new ≡ take 25
        (D.file disk.old half).now) }
    ensures few { IfOk result (λ size. size ≤ 25) }
    ensures only_read { D.honest disk.old → IsOnlyRead D.Disk disk.old disk.new }
    ensures disk { AfterCall D.Disk disk.old disk.new (is_ok result) }
{
    let length = disk.len(half)?;
    let size = (START as u64).min(length) as usize;
    disk.read_at(half, 0, &mut start[..size])?;
    Ok(size)
}

/// The first gate of a half with this start.
pub(crate) fn gate_in(start: &[u8]) -> Gate
    ensures { (bytes : List ℕ) → start.now ≡ take 25 bytes → GateIs bytes result }
{
    match start {
        [] | [1] => Gate::Alone,
        [1, ..] => Gate::Open,
        _ => Gate::Closed,
    }
}

/// Whether a half with this start has a closed first gate.
pub(crate) fn has_closed_gate(start: &[u8]) -> bool
    ensures { (bytes : List ℕ) → start.now ≡ take 25 bytes → FirstGate result bytes }
{
    !start.is_empty() && start[0] != OPEN
}

/// Whether a half that isn't open has a closed first gate. `AlreadyHere` if the half is open;
/// `Device` if the device fails.
pub(crate) fn closed_gate<D: Disk>(disk: &mut D, half: Half) -> Result<bool, Refusal>
    ensures closed { D.honest disk.old → IfOk result (λ is_closed. IsClosed
        (D.file disk.old half).now
        × FirstGate is_closed (D.file disk.old half).now) }
    ensures here { D.honest disk.old → result ≡ Err refusals.AlreadyHere →
        IsOpen (D.file disk.old half).now }
    ensures err { IfErr result (λ refusal. (refusal ≡ refusals.AlreadyHere)
        ⊎ (refusal ≡ refusals.Device)) }
    ensures only_read { D.honest disk.old → IsOnlyRead D.Disk disk.old disk.new }
    ensures disk { AfterCall D.Disk disk.old disk.new (is_no_failure result) }
{
    let mut start = [0; START];
    let size = read_start(disk, half, &mut start)?;
    match gate_in(&start[..size]) {
        Gate::Open => Err(Refusal::AlreadyHere),
        Gate::Closed => Ok(true),
        Gate::Alone => Ok(false),
    }
}

/// All bytes of a half. It makes two calls of the disk, which change nothing. `Memory`; `Device`.
pub(crate) fn read_whole<D: Disk>(
    alloc: Global,
    disk: &mut D,
    half: Half,
) -> Result<Vec<u8>, Refusal>
    ensures read { D.honest disk.old → IfOk result (λ bytes. bytes.items ≡
        (D.file disk.old half).now) }
    ensures err { IfErr result (λ refusal. (refusal ≡ refusals.Memory)
        ⊎ (refusal ≡ refusals.Device)) }
    ensures only_read { D.honest disk.old → IsOnlyRead D.Disk disk.old disk.new }
    ensures disk { AfterCall D.Disk disk.old disk.new (is_no_failure result) }
{
    let length = disk.len(half)?;
    let mut bytes = Vec::new(alloc);
    bytes.resize(length as usize, 0)?;
    disk.read_at(half, 0, bytes.as_mut_slice())?;
    Ok(bytes)
}
