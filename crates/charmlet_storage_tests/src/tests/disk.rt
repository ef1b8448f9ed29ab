mod crashes;
mod files;
mod fuses;

use charmlet_disk::Disk;
use charmlet_model::Half;
use std::process::Abort;

// `failures` calls were faults.
fn has_failures<D: Disk>(rt: &impl Abort, disk: &D, failures: u64) {
    assert_eq!(rt; disk.failures(), failures);
}

// A half has this length.
fn has_len<D: Disk>(rt: &impl Abort, disk: &mut D, half: Half, len: u64) {
    assert_eq!(rt; disk.len(half), Ok(len), "{half}");
}

// A half is synced.
fn syncs<D: Disk>(rt: &impl Abort, disk: &mut D, half: Half) {
    assert_eq!(rt; disk.sync(half), Ok(()), "{half}");
}
