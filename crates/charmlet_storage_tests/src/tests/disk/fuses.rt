// Disks that fail from some call on.
ghost use Rattle.std.specs.Prelude.{◌≡◌, ◌≤◌, false};
ghost use Rattle.charmlet_disk.specs.Disk.{faults_after};

use super::{has_failures, has_len};
use charmlet_disk::{DeviceFault, Disk, FuseDisk, MemDisk, OnceDisk};
use charmlet_model::Half;
use std::process::Abort;

// Writes a byte to the end of a half and syncs it, `times` times. Returns how many of the calls
// succeeded.
fn lengthen<D: Disk>(disk: &mut D, half: Half, times: u64) -> u64 {
    let mut done = 0u64;
    for _ in 0..times {
        if let Ok(end) = disk.len(half) {
            done = done.saturating_add(u64::from(disk.write_at(half, end, b"x").is_ok()));
        }
        done = done.saturating_add(u64::from(disk.sync(half).is_ok()));
    }
    done
}

// The number is this one.
fn is_number(rt: &impl Abort, found: u64, wanted: u64) {
    assert_eq!(rt; found, wanted);
}

// `calls` calls succeed while a half is lengthened `times` times.
fn lengthens<D: Disk>(rt: &impl Abort, disk: &mut D, half: Half, times: u64, calls: u64) {
    is_number(rt, lengthen(disk, half, times), calls);
}

// `calls` calls are on record.
fn has_calls(rt: &impl Abort, disk: &MemDisk, calls: u64) {
    is_number(rt, disk.calls().len() as u64, calls);
}

// A fuse passes `calls` of twelve calls, and lengths too.
fn passes_calls(rt: &impl Abort, fuse: &mut FuseDisk<MemDisk>, calls: u64)
    requires { calls ≤ 12 }
{
    lengthens(rt, fuse, Half::One, 6, calls);
    has_failures(rt, fuse, 12 - calls);
    has_len(rt, fuse, Half::One, calls.div_ceil(2));
    has_failures(rt, fuse, 12 - calls);
}

// The disk under a fuse got only the `calls` calls that passed, and none of them failed.
fn got_calls(rt: &impl Abort, disk: &mut MemDisk, calls: u64) {
    has_calls(rt, disk, calls);
    has_len(rt, disk, Half::One, calls.div_ceil(2));
    has_failures(rt, disk, 0);
    lengthens(rt, disk, Half::One, 1, 2);
}

#[test]
fn fuses_pass_so_many_calls(rt: HostRuntime) {
    for calls in 0..13 {
        let mut fuse = FuseDisk::new(MemDisk::new(rt.alloc()), calls);
        passes_calls(&rt, &mut fuse, calls);
        got_calls(&rt, &mut fuse.inner(), calls);
    }
}

// The first byte of a half, if there is one and it can be read.
fn first_byte<D: Disk>(disk: &mut D, half: Half) -> Option<u8> {
    let mut byte = [0; 1];
    match disk.len(half) {
        Ok(end) if end >= 1 => {
            disk.read_at(half, 0, &mut byte).ok()?;
            Some(byte[0])
        }
        _ => None,
    }
}

// The first byte of a half is this one, or none.
fn begins_with<D: Disk>(rt: &impl Abort, disk: &mut D, half: Half, byte: Option<u8>) {
    assert_eq!(rt; first_byte(disk, half), byte);
}

// Lengths and reads pass a blown fuse, and don't count.
#[test]
fn blown_fuses_pass_lengths_and_reads(rt: HostRuntime) {
    let mut fuse = FuseDisk::new(MemDisk::new(rt.alloc()), 1);
    lengthens(&rt, &mut fuse, Half::Zero, 2, 1);
    for _ in 0..3 {
        begins_with(&rt, &mut fuse, Half::Zero, Some(b'x'));
    }
    has_failures(&rt, &fuse, 3);
}

// The disk got `calls` calls, and none of them failed.
fn got_rest(rt: &impl Abort, disk: &mut MemDisk, calls: u64) {
    has_calls(rt, disk, calls);
    has_failures(rt, disk, 0);
    lengthens(rt, disk, Half::One, 1, 2);
}

// Each time a length is asked for, a byte is written and the half is synced. If the length fails,
// the write isn't made.
#[test]
fn once_disks_fail_one_call(rt: HostRuntime) {
    for calls in 0..13 {
        let mut once = OnceDisk::new(MemDisk::new(rt.alloc()), calls);
        let failed = u64::from(calls < 12);
        lengthens(&rt, &mut once, Half::One, 4, 8 - failed);
        has_failures(&rt, &once, failed);
        got_rest(&rt, &mut once.inner(), 8 - failed);
    }
}

// Lengths and reads count as other calls do.
#[test]
fn once_disks_fail_lengths_and_reads(rt: HostRuntime) {
    for calls in 3..7 {
        let mut once = OnceDisk::new(MemDisk::new(rt.alloc()), calls);
        lengthens(&rt, &mut once, Half::Zero, 1, 2);
        for time in 0..3 {
            let wanted = if 3 + 2 * time <= calls && calls < 5 + 2 * time {
                None
            } else {
                Some(b'x')
            };
            begins_with(&rt, &mut once, Half::Zero, wanted);
        }
        has_failures(&rt, &once, 1);
    }
}

// A disk whose every call fails.
#[derive(Drop)]
struct BrokenDisk {
    faults: u64,
}

impl BrokenDisk {
    fn fail(&mut self) -> DeviceFault
        ensures { self.new.faults ≡ faults_after false self.old.faults }
    {
        self.faults = self.faults.saturating_add(1);
        DeviceFault
    }
}

impl Disk for BrokenDisk {
    ghost use Rattle.std.specs.Prelude.{[]};
    ghost use Rattle.charmlet_disk.specs.File.{clean};

    ghost honest = { λ _. ⊥ };

    ghost file = { λ _ _. clean [] };

    ghost moment = { λ _. 0 };

    ghost since = { λ _ _ _. ⊥ };

    ghost faults = { λ disk. disk.faults };

    ghost reads_are_left = { λ disk honest half. absurd honest };

    ghost counts_now = { λ disk t c honest le left. absurd honest };

    ghost only_now = { λ disk c honest left. absurd honest };

    fn len(&mut self, _: Half) -> Result<u64, DeviceFault> {
        Err(self.fail())
    }

    fn read_at(&mut self, _: Half, _: u64, _: &mut [u8]) -> Result<(), DeviceFault> {
        Err(self.fail())
    }

    fn write_at(&mut self, _: Half, _: u64, _: &[u8]) -> Result<(), DeviceFault> {
        Err(self.fail())
    }

    fn sync(&mut self, _: Half) -> Result<(), DeviceFault> {
        Err(self.fail())
    }

    fn failures(&self) -> u64 {
        self.faults
    }
}

// A half can't be synced.
fn fails_to_sync<D: Disk>(rt: &impl Abort, disk: &mut D) {
    assert!(rt; disk.sync(Half::One).is_err());
}

// The length of a half can't be read.
fn has_no_len<D: Disk>(rt: &impl Abort, disk: &mut D)
    ensures { D.honest disk.new → D.honest disk.old }
{
    assert!(rt; disk.len(Half::One).is_err());
}

// A length, a read, a write and a sync are passed on to a disk, one after another, and each of them
// fails there once.
fn passes_each_once<D: Disk>(rt: &impl Abort, disk: &mut D)
    requires { D.honest disk.old → ⊥ }
{
    let mut byte = [0; 1];
    has_no_len(rt, disk);
    has_failures(rt, disk, 1);
    assert!(rt; disk.read_at(Half::One, 0, &mut byte).is_err());
    has_failures(rt, disk, 2);
    assert!(rt; disk.write_at(Half::One, 0, &byte).is_err());
    has_failures(rt, disk, 3);
    fails_to_sync(rt, disk);
    has_failures(rt, disk, 4);
}

#[test]
fn calls_are_passed_on_once(rt: HostRuntime) {
    let mut fuse = FuseDisk::new(BrokenDisk { faults: 0 }, 9);
    passes_each_once(&rt, &mut fuse);
    has_failures(&rt, &fuse.inner(), 4);
    let mut once = OnceDisk::new(BrokenDisk { faults: 0 }, 9);
    passes_each_once(&rt, &mut once);
    has_failures(&rt, &once.inner(), 4);
}

#[test]
fn failures_stay_at_the_greatest_count(rt: HostRuntime) {
    let broken = BrokenDisk {
        faults: u64::MAX - 2,
    };
    let mut fuse = FuseDisk::new(broken, 1);
    has_failures(&rt, &fuse, u64::MAX - 2);
    fails_to_sync(&rt, &mut fuse);
    has_failures(&rt, &fuse, u64::MAX - 1);
    fails_to_sync(&rt, &mut fuse);
    has_failures(&rt, &fuse, u64::MAX);
    fails_to_sync(&rt, &mut fuse);
    has_no_len(&rt, &mut fuse);
    has_failures(&rt, &fuse, u64::MAX);
    let mut disk = fuse.inner();
    has_failures(&rt, &disk, u64::MAX);
    has_no_len(&rt, &mut disk);
    has_failures(&rt, &disk, u64::MAX);
}
