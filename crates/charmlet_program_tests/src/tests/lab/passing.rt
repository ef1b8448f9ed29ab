//! Writes and syncs that any disk passes on to the one in memory beneath it, once each.

use charmlet_disk::{AnyDisk, Call, Disk, MemDisk};
use charmlet_model::Half;
use std::process::Abort;

// A write and a sync of each half are passed on, the one after the other.
fn passes(rt: &impl Abort, disk: &mut AnyDisk) {
    for half in [Half::Zero, Half::One] {
        assert!(rt; disk.write_at(half, 0, &[7]).is_ok());
        assert!(rt; disk.sync(half).is_ok());
    }
}

// There was a write and a sync of each half, and nothing else that changed the disk.
fn has_passed(rt: &impl Abort, disk: &MemDisk) {
    assert!(rt;
        matches!(
            disk.calls(),
            [
                Call::Write(Half::Zero, 0, _),
                Call::Sync(Half::Zero),
                Call::Write(Half::One, 0, _),
                Call::Sync(Half::One),
            ]
        )
    );
}

// The disk in memory that is beneath.
fn beneath(rt: &impl Abort, disk: AnyDisk) -> MemDisk {
    match disk {
        AnyDisk::Memory(memory) => memory,
        AnyDisk::Failing(fuse) => fuse.inner(),
        AnyDisk::Folder(_folder) => panic!(rt; "it is in memory"),
    }
}

#[test]
fn writes_and_syncs_are_passed_on_once(rt: HostRuntime) {
    let mut disk = AnyDisk::memory(rt.alloc());
    passes(&rt, &mut disk);
    has_passed(&rt, &beneath(&rt, disk));
}

#[test]
fn failing_disks_pass_writes_and_syncs_on_once(rt: HostRuntime) {
    let mut disk = AnyDisk::failing(rt.alloc(), 4);
    passes(&rt, &mut disk);
    assert!(rt; disk.sync(Half::Zero).is_err());
    assert!(rt; disk.write_at(Half::One, 0, &[7]).is_err());
    assert_eq!(rt; disk.failures(), 2);
    has_passed(&rt, &beneath(&rt, disk));
}
