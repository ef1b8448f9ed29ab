mod calls;
mod folders;
mod halves;

use super::has_failures;
use charmlet_disk::{DeviceFault, Disk, FileDisk};
use charmlet_model::Half;
use std::process::Abort;
use std::{fs, io};

// The most bytes that a test reads at once.
const MAX_READ: usize = 8;

// A disk over a folder.
struct OpenDisk {
    files: FileDisk,
}

// Written by hand, so that dropping a disk is proved here, and not in each test with a disk.
impl Drop for OpenDisk {
    fn drop(self) {
        let OpenDisk { files } = self;
        drop(files);
    }
}

// The disk over this folder.
fn open(host: HostRuntime, rt: &impl Abort, folder: &str) -> OpenDisk {
    OpenDisk {
        files: FileDisk::new(host, folder).expect(rt, "memory"),
    }
}

// An empty folder of this name, whatever an earlier run left there.
fn make_folder(rt: &HostRuntime, folder: &str) -> io::Result<()> {
    if fs::exists(rt, folder)? {
        fs::remove_dir_all(rt, folder)?;
    }
    fs::create_dir(rt, folder)
}

// How many names stand in a folder.
fn count_names(rt: &HostRuntime, folder: &str) -> io::Result<u64> {
    let mut names = 0u64;
    for entry in fs::read_dir(rt, folder)? {
        entry?;
        names = names.saturating_add(1);
    }
    Ok(names)
}

// This many names were counted.
fn are_names(rt: &impl Abort, counted: io::Result<u64>, wanted: u64) {
    assert_eq!(rt; counted.ok(), Some(wanted));
}

// The system did what it was asked to do.
fn done(rt: &impl Abort, answer: io::Result<()>, what: &str) {
    answer.expect(rt, what);
}

// Whether there is something at this path.
fn exists(rt: &HostRuntime, path: &str) -> bool {
    fs::metadata(rt, path).is_ok()
}

// The bytes are written.
fn writes(rt: &impl Abort, disk: &mut FileDisk, half: Half, offset: u64, bytes: &[u8]) {
    let written = disk.write_at(half, offset, bytes);
    assert_eq!(rt; written, Ok(()), "{half} at {offset}: {bytes:?}");
}

// The bytes can't be written there, and the failure is counted.
fn fails_to_write(rt: &impl Abort, disk: &mut FileDisk, half: Half, offset: u64, bytes: &[u8]) {
    let before = disk.failures();
    let written = disk.write_at(half, offset, bytes);
    assert_eq!(rt; written, Err(DeviceFault), "{half} at {offset}: {bytes:?}");
    has_failures(rt, disk, before.saturating_add(1));
}

// These bytes are read.
fn reads(rt: &impl Abort, disk: &mut FileDisk, half: Half, offset: u64, bytes: &[u8]) {
    let mut into = [9; MAX_READ];
    let count = bytes.len().min(MAX_READ);
    let read = disk.read_at(half, offset, &mut into[..count]);
    assert_eq!(rt; read, Ok(()), "{half} at {offset}");
    assert_eq!(rt; &into[..count], bytes, "{half} at {offset}");
}

// `count` bytes can't be read there, and the failure is counted.
fn fails_to_read(rt: &impl Abort, disk: &mut FileDisk, half: Half, offset: u64, count: usize) {
    let before = disk.failures();
    let mut into = [9; MAX_READ];
    let count = count.min(MAX_READ);
    let read = disk.read_at(half, offset, &mut into[..count]);
    assert_eq!(rt; read, Err(DeviceFault), "{half} at {offset}");
    has_failures(rt, disk, before.saturating_add(1));
}

// A half can't be synced, and the failure is counted.
fn fails_to_sync(rt: &impl Abort, disk: &mut FileDisk, half: Half) {
    let before = disk.failures();
    assert_eq!(rt; disk.sync(half), Err(DeviceFault), "{half}");
    has_failures(rt, disk, before.saturating_add(1));
}

// Each call of this half except its sync is a fault, and is counted.
fn half_has_faults(rt: &impl Abort, disk: &mut FileDisk, half: Half) {
    let before = disk.failures();
    assert_eq!(rt; disk.len(half), Err(DeviceFault), "{half}");
    has_failures(rt, disk, before.saturating_add(1));
    fails_to_read(rt, disk, half, 0, 0);
    fails_to_write(rt, disk, half, 0, b"a");
}

// Each call of the disk is a fault, and is counted.
fn has_faults(rt: &impl Abort, disk: &mut FileDisk) {
    for half in [Half::Zero, Half::One] {
        half_has_faults(rt, disk, half);
        fails_to_sync(rt, disk, half);
    }
}
