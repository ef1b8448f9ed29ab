// The folder of a disk of files, and its lock.

use super::{
    are_names, count_names, done, exists, fails_to_read, fails_to_write, has_faults, make_folder,
    open, reads, writes,
};
use crate::tests::disk::{has_failures, has_len, syncs};
use charmlet_disk::FileDisk;
use charmlet_model::Half;
use std::fs::{self, Permissions};
use std::io;
use std::os::unix::fs::{PermissionsExt, symlink};
use std::process::Abort;
use std::test::Fail;

// Both halves are written, one of them by no bytes.
fn write_both(rt: &impl Abort, disk: &mut FileDisk) {
    writes(rt, disk, Half::One, 0, b"abc");
    writes(rt, disk, Half::One, 2, b"cde");
    syncs(rt, disk, Half::One);
    writes(rt, disk, Half::Zero, 0, &[]);
    has_len(rt, disk, Half::Zero, 0);
    has_failures(rt, disk, 0);
}

// What was written is there.
fn has_both(rt: &impl Abort, disk: &mut FileDisk) {
    has_len(rt, disk, Half::One, 5);
    reads(rt, disk, Half::One, 1, b"bcde");
    has_len(rt, disk, Half::Zero, 0);
    has_failures(rt, disk, 0);
}

#[test]
fn bytes_are_there_when_the_folder_is_opened_anew(rt: HostRuntime) {
    let folder = "file_disk_anew";
    done(&rt, make_folder(&rt, folder), "an empty folder");
    let mut disk = open(rt, &rt, folder);
    write_both(&rt, &mut disk.files);
    assert!(rt; exists(&rt, "file_disk_anew/half0"));
    are_names(&rt, count_names(&rt, folder), 2);
    drop(disk);
    are_names(&rt, count_names(&rt, folder), 2);
    let mut again = open(rt, &rt, folder);
    has_both(&rt, &mut again.files);
    drop(again);
    done(&rt, fs::remove_dir_all(&rt, folder), "a folder");
}

#[test]
fn only_a_write_makes_a_file(rt: HostRuntime) {
    let folder = "file_disk_unwritten";
    done(&rt, make_folder(&rt, folder), "an empty folder");
    let mut disk = open(rt, &rt, folder);
    for half in [Half::Zero, Half::One] {
        has_len(&rt, &mut disk.files, half, 0);
        reads(&rt, &mut disk.files, half, 0, &[]);
        syncs(&rt, &mut disk.files, half);
        fails_to_read(&rt, &mut disk.files, half, 0, 1);
        fails_to_write(&rt, &mut disk.files, half, 1, b"a");
    }
    has_failures(&rt, &disk.files, 4);
    are_names(&rt, count_names(&rt, folder), 0);
    writes(&rt, &mut disk.files, Half::One, 0, b"a");
    are_names(&rt, count_names(&rt, folder), 1);
    assert!(rt; exists(&rt, "file_disk_unwritten/half1"));
    drop(disk);
    done(&rt, fs::remove_dir_all(&rt, folder), "a folder");
}

#[test]
fn missing_folder_is_a_fault_at_each_call(rt: HostRuntime) {
    let folder = "file_disk_missing";
    done(&rt, make_folder(&rt, folder), "an empty folder");
    done(&rt, fs::remove_dir(&rt, folder), "a folder");
    let mut disk = open(rt, &rt, folder);
    has_faults(&rt, &mut disk.files);
    assert!(rt; !exists(&rt, folder));
    done(&rt, fs::create_dir(&rt, folder), "a folder");
    writes(&rt, &mut disk.files, Half::Zero, 0, b"a");
    drop(disk);
    done(&rt, fs::remove_dir_all(&rt, folder), "a folder");
    // Nothing is looked for below the root if the path is empty.
    has_faults(&rt, &mut open(rt, &rt, "").files);
    has_faults(&rt, &mut open(rt, &rt, "file_disk\0missing").files);
}

#[test]
fn file_is_no_folder(rt: HostRuntime) {
    let path = "file_disk_no_folder";
    done(&rt, fs::write(&rt, path, b"abc".as_slice()), "a file");
    has_faults(&rt, &mut open(rt, &rt, path).files);
    let file = fs::metadata(&rt, path).expect(&rt, "a file");
    assert_eq!(rt; file.len(), 3);
    done(&rt, fs::remove_file(&rt, path), "a file");
}

// A link with this name to an empty folder.
fn make_link(rt: &HostRuntime, folder: &str, link: &str) -> io::Result<()> {
    make_folder(rt, folder)?;
    let _ = fs::remove_file(rt, link);
    symlink(rt, folder, link)
}

#[test]
fn second_disk_has_faults_until_the_first_is_dropped(rt: HostRuntime) {
    let (folder, link) = ("file_disk_two", "file_disk_two_link");
    done(&rt, make_link(&rt, folder, link), "a link to a folder");
    let mut first = open(rt, &rt, folder);
    let mut second = open(rt, &rt, "file_disk_two/");
    let mut third = open(rt, &rt, link);
    has_len(&rt, &mut first.files, Half::Zero, 0);
    has_faults(&rt, &mut second.files);
    has_faults(&rt, &mut third.files);
    writes(&rt, &mut first.files, Half::One, 0, b"abc");
    syncs(&rt, &mut first.files, Half::One);
    has_faults(&rt, &mut second.files);
    are_names(&rt, count_names(&rt, folder), 1);
    drop(first);
    has_len(&rt, &mut third.files, Half::One, 3);
    has_faults(&rt, &mut second.files);
    drop(third);
    has_len(&rt, &mut second.files, Half::One, 3);
    done(&rt, fs::remove_file(&rt, link), "a link");
    drop(second);
    done(&rt, fs::remove_dir_all(&rt, folder), "a folder");
}

#[test]
fn folder_that_is_moved_is_a_fault_until_it_is_back(rt: HostRuntime) {
    let (folder, moved) = ("file_disk_moved", "file_disk_moved_away");
    done(&rt, make_folder(&rt, moved), "an empty folder");
    done(&rt, fs::remove_dir(&rt, moved), "a folder");
    done(&rt, make_folder(&rt, folder), "an empty folder");
    let mut disk = open(rt, &rt, folder);
    writes(&rt, &mut disk.files, Half::Zero, 0, b"abc");
    done(&rt, fs::rename(&rt, folder, moved), "a folder");
    has_faults(&rt, &mut disk.files);
    // Another folder of that name is not the one that is locked, and gets nothing.
    done(&rt, fs::create_dir(&rt, folder), "a folder");
    has_faults(&rt, &mut disk.files);
    are_names(&rt, count_names(&rt, folder), 0);
    done(&rt, fs::remove_dir(&rt, folder), "a folder");
    done(&rt, fs::rename(&rt, moved, folder), "a folder");
    has_len(&rt, &mut disk.files, Half::Zero, 3);
    writes(&rt, &mut disk.files, Half::One, 0, b"d");
    syncs(&rt, &mut disk.files, Half::One);
    are_names(&rt, count_names(&rt, folder), 2);
    drop(disk);
    done(&rt, fs::remove_dir_all(&rt, folder), "a folder");
}

// Sets who may do what with a file or a folder.
fn permit(rt: &HostRuntime, path: &str, mode: u32) -> io::Result<()> {
    fs::set_permissions(rt, path, Permissions::from_mode(mode))
}

// A folder with a half of three bytes, neither of which may be written.
fn make_read_only(rt: &HostRuntime, folder: &str, half: &str) -> io::Result<()> {
    if exists(rt, folder) {
        permit(rt, folder, 0o755)?;
    }
    make_folder(rt, folder)?;
    fs::write(rt, half, b"abc".as_slice())?;
    permit(rt, half, 0o444)?;
    permit(rt, folder, 0o555)
}

// Everything that can be read in that folder is read.
fn is_read(rt: &impl Abort, disk: &mut FileDisk) {
    has_len(rt, disk, Half::Zero, 0);
    syncs(rt, disk, Half::Zero);
    has_len(rt, disk, Half::One, 3);
    reads(rt, disk, Half::One, 0, b"abc");
    syncs(rt, disk, Half::One);
}

// A write to either half is a fault, and what is there can still be read.
fn is_not_written(rt: &impl Abort, disk: &mut FileDisk) {
    fails_to_write(rt, disk, Half::Zero, 0, b"x");
    fails_to_write(rt, disk, Half::One, 0, b"x");
    has_failures(rt, disk, 2);
    reads(rt, disk, Half::One, 0, b"abc");
}

// The superuser may do everything. So a refusal is only tried if the system refuses at all.
#[test]
fn folder_without_the_right_to_write_is_read(rt: HostRuntime) {
    let folder = "file_disk_read_only";
    done(
        &rt,
        make_read_only(&rt, folder, "file_disk_read_only/half1"),
        "a folder",
    );
    let may_write = fs::write(&rt, "file_disk_read_only/other", b"".as_slice()).is_ok();
    let mut disk = open(rt, &rt, folder);
    is_read(&rt, &mut disk.files);
    if !may_write {
        is_not_written(&rt, &mut disk.files);
        are_names(&rt, count_names(&rt, folder), 1);
    }
    drop(disk);
    done(&rt, permit(&rt, folder, 0o333), "a mode");
    let may_read = fs::read_dir(&rt, folder).is_ok();
    if !may_read {
        has_faults(&rt, &mut open(rt, &rt, folder).files);
    }
    done(&rt, permit(&rt, folder, 0o755), "a mode");
    done(&rt, fs::remove_dir_all(&rt, folder), "a folder");
}

// It also passes if any one allocation is refused.
#[test]
fn refused_memory_makes_no_disk(rt: HostRuntime) -> Result<(), Fail> {
    let folder = "file_disk_refused_memory";
    let _ = fs::remove_file(&rt, "file_disk_refused_memory/half0");
    let _ = fs::remove_dir(&rt, folder);
    fs::create_dir(&rt, folder)?;
    let mut disk = match FileDisk::new(rt, folder) {
        Ok(disk) => disk,
        Err(_) => FileDisk::new(rt, folder)?,
    };
    writes(&rt, &mut disk, Half::Zero, 0, b"abc");
    syncs(&rt, &mut disk, Half::Zero);
    has_len(&rt, &mut disk, Half::Zero, 3);
    has_failures(&rt, &disk, 0);
    drop(disk);
    fs::remove_file(&rt, "file_disk_refused_memory/half0")?;
    fs::remove_dir(&rt, folder)?;
    Ok(())
}
