//! A disk that forgets what it should keep.

ghost use Rattle.std.specs.Prelude.{◌≡◌, is_ok};
ghost use Rattle.charmlet_disk.specs.Disk.{faults_after};

use charmlet_disk::{CrashChoice, DeviceFault, Disk, MemDisk};
use charmlet_lab::LabDisk;
use charmlet_model::Half;
use std::alloc::Global;

// A disk in memory whose syncs succeed and do nothing. So it isn't honest. It passes a number of
// writes and syncs, and then fails each.
#[derive(Drop)]
pub(super) struct ForgetfulDisk {
    disk: MemDisk,
    left: u64,
    faults: u64,
}

// Ends a call, and counts its fault if there is one.
fn counted(done: Result<(), DeviceFault>, faults: &mut u64) -> Result<(), DeviceFault>
    ensures { faults.new ≡ faults_after (is_ok result) faults.old }
{
    if done.is_err() {
        *faults = faults.saturating_add(1);
        return Err(DeviceFault);
    }
    Ok(())
}

// Uses up one call, or fails if none is left.
fn spend(left: &mut u64) -> Result<(), DeviceFault> {
    match left.checked_sub(1) {
        Some(fewer) => {
            *left = fewer;
            Ok(())
        }
        None => Err(DeviceFault),
    }
}

// Reads bytes, if they are inside.
fn read(disk: &mut MemDisk, half: Half, offset: u64, into: &mut [u8]) -> Result<(), DeviceFault> {
    let length = disk.len(half)?;
    if length < offset || length - offset < into.len() as u64 {
        return Err(DeviceFault);
    }
    disk.read_at(half, offset, into)
}

// Writes bytes, if a call is left, and they begin inside or at the end.
fn write(
    disk: &mut MemDisk,
    left: &mut u64,
    half: Half,
    offset: u64,
    bytes: &[u8],
) -> Result<(), DeviceFault> {
    spend(left)?;
    if disk.len(half)? < offset {
        return Err(DeviceFault);
    }
    disk.write_at(half, offset, bytes)
}

impl Disk for ForgetfulDisk {
    ghost use Rattle.std.specs.Prelude.{[]};
    ghost use Rattle.charmlet_disk.specs.File.{clean};

    ghost honest = { λ _. ⊥ };

    ghost file = { λ _ _. clean [] };

    ghost moment = { λ _. 0 };

    ghost since = { λ _ _ _. ⊥ };

    ghost faults = { λ disk. disk.faults };

    ghost reads_are_left = { λ disk honest half. absurd honest };

    ghost counts_now = { λ disk t c honest le left. absurd honest };

    ghost only_now = { λ disk c honest left. absurd honest };

    fn len(&mut self, half: Half) -> Result<u64, DeviceFault> {
        match self.disk.len(half) {
            Ok(length) => Ok(length),
            Err(_) => {
                self.faults = self.faults.saturating_add(1);
                Err(DeviceFault)
            }
        }
    }

    fn read_at(&mut self, half: Half, offset: u64, into: &mut [u8]) -> Result<(), DeviceFault> {
        let done = read(&mut self.disk, half, offset, into);
        counted(done, &mut self.faults)
    }

    fn write_at(&mut self, half: Half, offset: u64, bytes: &[u8]) -> Result<(), DeviceFault> {
        let done = write(&mut self.disk, &mut self.left, half, offset, bytes);
        counted(done, &mut self.faults)
    }

    fn sync(&mut self, _half: Half) -> Result<(), DeviceFault> {
        let done = spend(&mut self.left);
        counted(done, &mut self.faults)
    }

    fn failures(&self) -> u64 {
        self.faults
    }
}

impl LabDisk for ForgetfulDisk {
    ghost use Rattle.std.specs.Prelude.{Some};

    ghost calls_left = { λ disk. Some disk.left };

    fn failing(alloc: Global, calls: u64) -> Self {
        ForgetfulDisk {
            disk: MemDisk::new(alloc),
            left: calls,
            faults: 0,
        }
    }

    fn crash(self, choice: CrashChoice) -> Self {
        let ForgetfulDisk { disk, faults, .. } = self;
        ForgetfulDisk {
            disk: disk.crash(choice),
            left: u64::MAX,
            faults,
        }
    }
}
