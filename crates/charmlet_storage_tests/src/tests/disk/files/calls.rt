// The same calls of a disk of files and of a disk in memory give the same answers, and leave the
// same bytes.
ghost use Rattle.std.specs.Prelude.{◌≤◌};

use super::{OpenDisk, done, make_folder, open};
use crate::tests::disk::has_failures;
use charmlet_disk::{DeviceFault, Disk, FileDisk, MemDisk};
use charmlet_model::Half;
use std::fs;
use std::process::Abort;

// The greatest length of a half, so that it has up to three pages of a file system.
const MAX_LEN: usize = 9000;

// A call. An offset is brought inside the half, or to its end. A read ends inside the half too, and
// a write ends before the half would have more than `MAX_LEN` bytes.
#[derive(Clone, Copy, Debug)]
enum Call {
    Len(Half),
    Read(Half, u64, usize),
    Write(Half, u64, usize, u8),
    Sync(Half),
}

// Numbers that look random, from a seed.
#[derive(Drop)]
struct Numbers(u64);

impl Numbers {
    fn next(&mut self) -> u64 {
        self.0 = self.0.wrapping_add(0x9e37_79b9_7f4a_7c15);
        let mixed = (self.0 ^ (self.0 >> 30)).wrapping_mul(0xbf58_476d_1ce4_e5b9);
        let mixed = (mixed ^ (mixed >> 27)).wrapping_mul(0x94d0_49bb_1331_11eb);
        mixed ^ (mixed >> 31)
    }

    fn half(&mut self) -> Half {
        if self.next() % 2 == 0 {
            Half::Zero
        } else {
            Half::One
        }
    }

    // Mostly a few bytes, and sometimes more than a page.
    fn count(&mut self) -> usize {
        let most = if self.next() % 8 == 0 { 5000 } else { 40 };
        (self.next() % most) as usize
    }

    fn call(&mut self) -> Call {
        match self.next() % 16 {
            0 => Call::Len(self.half()),
            1..=4 => Call::Read(self.half(), self.next(), self.count()),
            5 => Call::Sync(self.half()),
            _ => Call::Write(
                self.half(),
                self.next(),
                self.count(),
                (self.next() % 256) as u8,
            ),
        }
    }
}

// An offset inside a half of this length, or, one time in four, its end.
fn within(offset: u64, len: u64) -> u64
    ensures { result ≤ len }
{
    if offset % 4 == 0 {
        len
    } else {
        offset % len.saturating_add(1)
    }
}

// Makes the call, and returns its number of bytes, or the length that was asked for. The bytes of a
// read go into the buffer.
fn make<D: Disk>(disk: &mut D, call: Call, buffer: &mut [u8]) -> Result<u64, DeviceFault> {
    match call {
        Call::Len(half) => disk.len(half),
        Call::Read(half, offset, count) => {
            let len = disk.len(half)?;
            let offset = within(offset, len);
            let count = count.min(buffer.len());
            let count = if len - offset < count as u64 {
                (len - offset) as usize
            } else {
                count
            };
            disk.read_at(half, offset, &mut buffer[..count])?;
            Ok(count as u64)
        }
        Call::Write(half, offset, count, first) => {
            let len = disk.len(half)?;
            let offset = within(offset, len);
            let room = (buffer.len() as u64).saturating_sub(offset);
            let count = if room < count as u64 {
                room as usize
            } else {
                count
            };
            let mut byte = first;
            for place in &mut buffer[..count] {
                *place = byte;
                byte = byte.wrapping_add(1);
            }
            disk.write_at(half, offset, &buffer[..count])?;
            Ok(count as u64)
        }
        Call::Sync(half) => {
            disk.sync(half)?;
            Ok(0)
        }
    }
}

// The length of a half, and all its bytes in the buffer.
fn contents<D: Disk>(disk: &mut D, half: Half, into: &mut [u8]) -> Result<u64, DeviceFault> {
    let len = disk.len(half)?;
    if len <= into.len() as u64 {
        disk.read_at(half, 0, &mut into[..len as usize])?;
    }
    Ok(len)
}

// The buffers that reads of both disks filled.
#[derive(Drop)]
struct Buffers {
    of_files: [u8; MAX_LEN],
    of_memory: [u8; MAX_LEN],
}

// The call has the same answer on both disks, and reads the same bytes.
fn make_both(
    rt: &impl Abort,
    files: &mut FileDisk,
    memory: &mut MemDisk,
    call: Call,
    buffers: &mut Buffers,
) {
    let answer = make(files, call, &mut buffers.of_files);
    assert!(rt; answer.is_ok(), "{call:?}");
    assert_eq!(rt;
        answer,
        make(memory, call, &mut buffers.of_memory),
        "{call:?}"
    );
    assert!(rt; buffers.of_files == buffers.of_memory, "{call:?}");
    assert_eq!(rt; files.failures(), memory.failures(), "{call:?}");
}

// A half has the same bytes on both disks.
fn compare(
    rt: &impl Abort,
    files: &mut FileDisk,
    memory: &mut MemDisk,
    half: Half,
    buffers: &mut Buffers,
) {
    let len = contents(files, half, &mut buffers.of_files);
    assert!(rt; len.is_ok(), "{half}");
    assert_eq!(rt;
        len,
        contents(memory, half, &mut buffers.of_memory),
        "{half}"
    );
    assert!(rt; buffers.of_files == buffers.of_memory, "{half}");
}

// The disk is dropped, and its folder opened anew.
fn reopened(host: HostRuntime, rt: &impl Abort, folder: &str, disk: OpenDisk) -> OpenDisk {
    drop(disk);
    open(host, rt, folder)
}

// Some calls on new disks, after which both halves are compared.
fn run_sequence(
    host: HostRuntime,
    rt: &impl Abort,
    folder: &str,
    numbers: &mut Numbers,
    buffers: &mut Buffers,
) {
    let mut disk = open(host, rt, folder);
    let mut memory = MemDisk::new(host.alloc());
    for _ in 0..24 {
        make_both(rt, &mut disk.files, &mut memory, numbers.call(), buffers);
        if numbers.next() % 8 == 0 {
            disk = reopened(host, rt, folder, disk);
        }
    }
    for half in [Half::Zero, Half::One] {
        compare(rt, &mut disk.files, &mut memory, half, buffers);
    }
}

#[test]
fn files_answer_as_memory_does(rt: HostRuntime) {
    let mut numbers = Numbers(2718);
    let mut buffers = Buffers {
        of_files: [0; MAX_LEN],
        of_memory: [0; MAX_LEN],
    };
    let folder = "file_disk_calls";
    for _ in 0..200 {
        done(&rt, make_folder(&rt, folder), "an empty folder");
        run_sequence(rt, &rt, folder, &mut numbers, &mut buffers);
        done(&rt, fs::remove_dir_all(&rt, folder), "a folder");
    }
}

// Makes a call, one time in four a write past the end, and returns whether it is a fault.
fn is_fault(disk: &mut FileDisk, numbers: &mut Numbers, buffer: &mut [u8]) -> bool {
    let call = numbers.call();
    if numbers.next() % 4 == 0 {
        disk.write_at(numbers.half(), 1 << 40, buffer).is_err()
    } else {
        make(disk, call, buffer).is_err()
    }
}

// This also holds if any system call that reads, writes or syncs a half is refused.
#[test]
fn each_fault_counts_once(rt: HostRuntime) {
    let folder = "file_disk_count";
    done(&rt, make_folder(&rt, folder), "an empty folder");
    let mut disk = open(rt, &rt, folder);
    let mut numbers = Numbers(1828);
    let mut buffer = [0; MAX_LEN];
    let mut faults = 0u64;
    for _ in 0..100 {
        if is_fault(&mut disk.files, &mut numbers, &mut buffer) {
            faults = faults.saturating_add(1);
        }
        has_failures(&rt, &disk.files, faults);
    }
    assert!(rt; faults > 0);
    drop(disk);
    done(&rt, fs::remove_dir_all(&rt, folder), "a folder");
}
