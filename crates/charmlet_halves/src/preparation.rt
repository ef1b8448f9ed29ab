//! Preparation of an image in the half that isn't taken.

ghost use Rattle.std.specs.Prelude.{◌≡◌, true, is_ok, OnOk};
ghost use Rattle.charmlet_model.specs.Half.{other};
ghost use Rattle.charmlet_disk.specs.File.{overwritten};
ghost use Rattle.charmlet_disk.specs.Calls.{AfterCall};
ghost use Rattle.charmlet_disk.specs.Disk.{IsSettled, LeavesOnly};
ghost use Rattle.charmlet_halves.specs.Bytes.{EndsClosed, FirstGate, Prepares, before_gate, closed_by};
ghost use Rattle.charmlet_halves.specs.Steps.{ClosedOrSame};

use charmlet_disk::{DeviceFault, Disk, write_and_sync};
use charmlet_model::Half;

/// The byte that is written to close a gate.
const CLOSED: u8 = 0;

/// Closes the first gate of a half, unless it is closed already. Bytes after a closed gate may be
/// torn, and a crash may leave a gate open while it is being written.
fn close<D: Disk>(disk: &mut D, half: Half, is_closed: bool) -> Result<(), DeviceFault>
    requires settled { D.honest disk.old → IsSettled (D.file disk.old) }
    requires gate { D.honest disk.old → FirstGate is_closed (D.file disk.old half).now }
    ensures settled { D.honest disk.old → OnOk result (IsSettled (D.file disk.new)) }
    ensures closed { D.honest disk.old → OnOk result (FirstGate true (D.file disk.new half).now) }
    ensures written { D.honest disk.old → OnOk result
        ((D.file disk.new half).now ≡ closed_by is_closed (D.file disk.old half).now) }
    ensures other { D.honest disk.old → D.file disk.new (other half) ≡ D.file disk.old
        (other half) }
    ensures any_moment { D.honest disk.old → LeavesOnly D.moment D.since disk.old disk.new
        (ClosedOrSame (D.file disk.old) half) }
    ensures disk { AfterCall D.Disk disk.old disk.new (is_ok result) }
{
    if is_closed {
        return Ok(());
    }
    write_and_sync(disk, half, 0, &[CLOSED])?;
    Ok(())
}

/// Writes an image, which ends with the closed gate of its first batch, after the closed first gate
/// of a half.
pub(crate) fn prepare<D: Disk>(
    disk: &mut D,
    half: Half,
    is_closed: bool,
    bytes: &[u8],
) -> Result<(), DeviceFault>
    requires settled { D.honest disk.old → IsSettled (D.file disk.old) }
    requires gate { D.honest disk.old → FirstGate is_closed (D.file disk.old half).now }
    requires framed { EndsClosed bytes.now }
    ensures settled { D.honest disk.old → OnOk result (IsSettled (D.file disk.new)) }
    ensures prepared { D.honest disk.old →
        OnOk result (Prepares (D.file disk.new half).now (before_gate bytes.now)) }
    ensures written { D.honest disk.old → OnOk result ((D.file disk.new half).now
        ≡ overwritten 1 bytes.now (closed_by is_closed (D.file disk.old half).now)) }
    ensures other { D.honest disk.old → D.file disk.new (other half) ≡ D.file disk.old
        (other half) }
    ensures any_moment { D.honest disk.old → LeavesOnly D.moment D.since disk.old disk.new
        (ClosedOrSame (D.file disk.old) half) }
    ensures disk { AfterCall D.Disk disk.old disk.new (is_ok result) }
{
    close(disk, half, is_closed)?;
    write_and_sync(disk, half, 1, bytes)?;
    Ok(())
}
