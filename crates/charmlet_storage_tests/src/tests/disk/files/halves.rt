// The files of a disk of files, and their faults.

use super::{
    are_names, count_names, done, fails_to_read, fails_to_sync, fails_to_write, half_has_faults,
    make_folder, open, reads, writes,
};
use crate::tests::disk::{has_failures, has_len, syncs};
use charmlet_disk::FileDisk;
use charmlet_model::Half;
use std::fs::{self, OpenOptions};
use std::io;
use std::os::unix::fs::symlink;
use std::process::Abort;

#[test]
fn folder_is_no_half(rt: HostRuntime) {
    let folder = "file_disk_folder_as_half";
    done(&rt, make_folder(&rt, folder), "an empty folder");
    done(
        &rt,
        fs::create_dir(&rt, "file_disk_folder_as_half/half0"),
        "a folder",
    );
    let mut disk = open(rt, &rt, folder);
    half_has_faults(&rt, &mut disk.files, Half::Zero);
    fails_to_sync(&rt, &mut disk.files, Half::Zero);
    writes(&rt, &mut disk.files, Half::One, 0, b"abc");
    syncs(&rt, &mut disk.files, Half::One);
    has_failures(&rt, &disk.files, 4);
    drop(disk);
    done(&rt, fs::remove_dir_all(&rt, folder), "a folder");
}

// A folder whose first half is a link to a file, and whose second half is another name of it.
fn make_links(rt: &HostRuntime, folder: &str) -> io::Result<()> {
    make_folder(rt, folder)?;
    fs::write(rt, "file_disk_links/other", b"abc".as_slice())?;
    symlink(rt, "other", "file_disk_links/half0")?;
    fs::hard_link(rt, "file_disk_links/other", "file_disk_links/half1")
}

#[test]
fn link_or_second_name_is_no_half(rt: HostRuntime) {
    let folder = "file_disk_links";
    done(&rt, make_links(&rt, folder), "a folder with links");
    let mut disk = open(rt, &rt, folder);
    half_has_faults(&rt, &mut disk.files, Half::Zero);
    half_has_faults(&rt, &mut disk.files, Half::One);
    done(&rt, fs::remove_file(&rt, "file_disk_links/other"), "a file");
    // Now the link leads nowhere, and the other half has one name.
    half_has_faults(&rt, &mut disk.files, Half::Zero);
    are_names(&rt, count_names(&rt, folder), 2);
    has_len(&rt, &mut disk.files, Half::One, 3);
    drop(disk);
    done(&rt, fs::remove_dir_all(&rt, folder), "a folder");
}

// Nothing can be read or written past the end of a half.
fn ends_before(rt: &impl Abort, disk: &mut FileDisk, offset: u64) {
    fails_to_read(rt, disk, Half::Zero, offset, 0);
    fails_to_write(rt, disk, Half::Zero, offset, b"z");
    fails_to_write(rt, disk, Half::Zero, offset, b"");
}

#[test]
fn calls_past_the_end_are_faults(rt: HostRuntime) {
    let folder = "file_disk_past_the_end";
    done(&rt, make_folder(&rt, folder), "an empty folder");
    let mut disk = open(rt, &rt, folder);
    writes(&rt, &mut disk.files, Half::Zero, 0, b"abcde");
    for offset in [4, 5, 6, 1 << 63, u64::MAX] {
        fails_to_read(&rt, &mut disk.files, Half::Zero, offset, 2);
    }
    for offset in [6, 1 << 63, u64::MAX] {
        ends_before(&rt, &mut disk.files, offset);
    }
    has_failures(&rt, &disk.files, 14);
    reads(&rt, &mut disk.files, Half::Zero, 5, &[]);
    reads(&rt, &mut disk.files, Half::Zero, 3, b"de");
    has_len(&rt, &mut disk.files, Half::Zero, 5);
    has_failures(&rt, &disk.files, 14);
    drop(disk);
    done(&rt, fs::remove_dir_all(&rt, folder), "a folder");
}

// Sets the length of a file.
fn cut(rt: &HostRuntime, path: &str, len: u64) -> io::Result<()> {
    OpenOptions::new().write(true).open(rt, path)?.set_len(len)
}

#[test]
fn half_cut_short_is_not_read_past_its_new_end(rt: HostRuntime) {
    let (folder, half) = ("file_disk_cut", "file_disk_cut/half0");
    done(&rt, make_folder(&rt, folder), "an empty folder");
    let mut disk = open(rt, &rt, folder);
    writes(&rt, &mut disk.files, Half::Zero, 0, b"abcde");
    syncs(&rt, &mut disk.files, Half::Zero);
    done(&rt, cut(&rt, half, 2), "a file");
    fails_to_read(&rt, &mut disk.files, Half::Zero, 0, 3);
    fails_to_write(&rt, &mut disk.files, Half::Zero, 3, b"z");
    has_failures(&rt, &disk.files, 2);
    has_len(&rt, &mut disk.files, Half::Zero, 2);
    reads(&rt, &mut disk.files, Half::Zero, 0, b"ab");
    drop(disk);
    done(&rt, fs::remove_dir_all(&rt, folder), "a folder");
}

#[test]
fn half_that_lost_its_name_is_a_fault(rt: HostRuntime) {
    let (folder, half) = ("file_disk_removed", "file_disk_removed/half0");
    done(&rt, make_folder(&rt, folder), "an empty folder");
    let mut disk = open(rt, &rt, folder);
    writes(&rt, &mut disk.files, Half::Zero, 0, b"abc");
    has_len(&rt, &mut disk.files, Half::One, 0);
    done(&rt, fs::remove_file(&rt, half), "a file");
    half_has_faults(&rt, &mut disk.files, Half::Zero);
    has_len(&rt, &mut disk.files, Half::One, 0);
    fails_to_sync(&rt, &mut disk.files, Half::Zero);
    // What a failed sync was to make durable is lost, and no later call says otherwise.
    half_has_faults(&rt, &mut disk.files, Half::One);
    fails_to_sync(&rt, &mut disk.files, Half::One);
    has_failures(&rt, &disk.files, 8);
    are_names(&rt, count_names(&rt, folder), 0);
    drop(disk);
    let mut again = open(rt, &rt, folder);
    has_len(&rt, &mut again.files, Half::Zero, 0);
    syncs(&rt, &mut again.files, Half::Zero);
    drop(again);
    done(&rt, fs::remove_dir_all(&rt, folder), "a folder");
}

// Makes the file as long as the system lets it be, with no byte written, and returns its length, or
// `None` if it can have neither of two lengths that are the limits of file systems.
fn grow(rt: &HostRuntime, path: &str) -> io::Result<Option<u64>> {
    let file = OpenOptions::new().write(true).open(rt, path)?;
    for len in [(1 << 63) - 1, (1 << 44) - 4096] {
        if file.set_len(len).is_ok() {
            return Ok(Some(len));
        }
    }
    Ok(None)
}

// A half of this length, whose first byte is an a, can't grow any more.
fn is_greatest(rt: &impl Abort, disk: &mut FileDisk, len: u64) {
    has_len(rt, disk, Half::One, len);
    fails_to_write(rt, disk, Half::One, len, b"z");
    has_failures(rt, disk, 1);
    has_len(rt, disk, Half::One, len);
    reads(rt, disk, Half::One, 0, b"a\0");
    fails_to_read(rt, disk, Half::One, len, 2);
    writes(rt, disk, Half::One, 1, b"b");
    has_failures(rt, disk, 2);
}

#[test]
fn write_past_the_greatest_length_is_a_fault(rt: HostRuntime) {
    let (folder, half) = ("file_disk_greatest", "file_disk_greatest/half1");
    done(&rt, make_folder(&rt, folder), "an empty folder");
    done(&rt, fs::write(&rt, half, b"a".as_slice()), "a file");
    if let Some(len) = grow(&rt, half).expect(&rt, "a file") {
        let mut disk = open(rt, &rt, folder);
        is_greatest(&rt, &mut disk.files, len);
    }
    done(&rt, fs::remove_dir_all(&rt, folder), "a folder");
}
