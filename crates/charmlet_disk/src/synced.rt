//! Writes that are durable when the call returns.
ghost use Rattle.std.specs.Prelude.{◌≡◌, ◌≤◌, length, is_ok, OnOk};
ghost use Rattle.charmlet_model.specs.Half.{other};
ghost use Rattle.charmlet_disk.specs.File.{clean, overwritten};
ghost use Rattle.charmlet_disk.specs.Calls.{AfterCall, IsUnwritten};
ghost use Rattle.charmlet_disk.specs.Disk.{IsSettled, LeavesOnly};
ghost use Rattle.charmlet_disk.specs.Torn.{TearsHalf};

use crate::{DeviceFault, Disk};
use charmlet_model::Half;

/// Writes bytes to a half of a settled disk from an offset on, which is at most its end, and syncs
/// it. It makes two calls of the disk. A crash at any moment of them leaves the half as it was,
/// except for any bytes in the range and past the old end, and leaves the other half as it is.
/// Answers [`DeviceFault`] if either call does; how much of the range is written is unknown then.
pub fn write_and_sync<D: Disk>(
    disk: &mut D,
    half: Half,
    offset: u64,
    bytes: &[u8],
) -> Result<(), DeviceFault>
    requires settled { D.honest disk.old → IsSettled (D.file disk.old) }
    requires inside { D.honest disk.old → offset ≤ length (D.file disk.old half).now }
    ensures written { D.honest disk.old → OnOk result
        (D.file disk.new half ≡ clean (overwritten offset bytes.now (D.file disk.old half).now)) }
    ensures other { D.honest disk.old →
        D.file disk.new (other half) ≡ D.file disk.old (other half) }
    ensures any_moment { D.honest disk.old → LeavesOnly D.moment D.since disk.old disk.new
        (TearsHalf (D.file disk.old) half offset (length bytes.now)) }
    ensures disk { AfterCall D.Disk disk.old disk.new (is_ok result) }
{
    disk.write_at(half, offset, bytes)?;
    disk.sync(half)
}

/// Syncs both halves, half 0 first, so that the disk is settled. It makes two calls of the disk,
/// and no outcome is new. Answers [`DeviceFault`] if either sync does; if the first one does, the
/// second isn't made.
pub fn sync_both<D: Disk>(disk: &mut D) -> Result<(), DeviceFault>
    ensures settled { D.honest disk.old → OnOk result (IsSettled (D.file disk.new)) }
    ensures unwritten { D.honest disk.old → IsUnwritten D.Disk disk.old disk.new }
    ensures disk { AfterCall D.Disk disk.old disk.new (is_ok result) }
{
    disk.sync(Half::Zero)?;
    disk.sync(Half::One)
}
