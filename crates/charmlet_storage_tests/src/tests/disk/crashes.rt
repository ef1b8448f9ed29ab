// What a crash leaves on a disk in memory, by its bytes.
use super::{has_failures, has_len, syncs};
use charmlet_disk::{CrashChoice, Disk, MemDisk, sync_both, write_and_sync};
use charmlet_model::Half;
use std::alloc::{AllocError, AllocGlobal, Global};
use std::process::Abort;

// A write at an offset.
#[derive(Clone, Copy)]
struct Write(u64, &'static [u8]);

// Writes, if the offset is no further than the end.
fn put<D: Disk>(disk: &mut D, half: Half, offset: u64, bytes: &[u8]) -> bool {
    match disk.len(half) {
        Ok(end) if offset <= end => disk.write_at(half, offset, bytes).is_ok(),
        _ => false,
    }
}

// The bytes are written.
fn puts(rt: &impl Abort, disk: &mut MemDisk, half: Half, offset: u64, bytes: &[u8]) {
    assert!(rt; put(disk, half, offset, bytes));
}

// Both halves are synced.
fn settles(rt: &impl Abort, disk: &mut MemDisk) {
    assert!(rt; sync_both(disk).is_ok());
}

// The bytes are these.
fn are_bytes(rt: &impl Abort, found: &[u8], wanted: &[u8]) {
    assert_eq!(rt; found, wanted);
}

// The half has these bytes.
fn has_bytes(rt: &(impl AllocGlobal + Abort), disk: &mut MemDisk, half: Half, bytes: &[u8]) {
    let found = all(rt.alloc(), disk, half).expect(rt, "memory");
    are_bytes(rt, &found, bytes);
}

// All bytes of a half.
fn all(alloc: Global, disk: &mut MemDisk, half: Half) -> Result<Vec<u8>, AllocError> {
    let mut bytes = Vec::new(alloc);
    if let Ok(end) = disk.len(half) {
        bytes.resize(end as usize, 0)?;
        let _ = disk.read_at(half, 0, &mut bytes);
    }
    Ok(bytes)
}

// A disk whose half has these bytes, and then was written in this way.
fn written(rt: &(impl AllocGlobal + Abort), half: Half, old: &[u8], writes: &[Write]) -> MemDisk {
    let mut disk = MemDisk::new(rt.alloc());
    puts(rt, &mut disk, half, 0, old);
    settles(rt, &mut disk);
    for Write(offset, bytes) in writes {
        puts(rt, &mut disk, half, *offset, bytes);
    }
    disk
}

// The half has these bytes, all of them durable, and the other half is empty.
fn stays(rt: &(impl AllocGlobal + Abort), mut disk: MemDisk, half: Half, bytes: &[u8]) {
    has_bytes(rt, &mut disk, half, bytes);
    has_len(rt, &mut disk, half.other(), 0);
    has_bytes(rt, &mut disk.crash(CrashChoice::Old), half, bytes);
}

// Each choice leaves the wanted bytes in the half, all of them durable, and the other half stays
// empty.
fn leaves(
    rt: &(impl AllocGlobal + Abort),
    half: Half,
    old: &[u8],
    writes: &[Write],
    wanted: &[&[u8]; 6],
) {
    for k in 0..6 {
        let left = written(rt, half, old, writes).crash(CrashChoice::ALL[k]);
        stays(rt, left, half, wanted[k]);
    }
}

#[test]
fn crashes_leave_overlapping_ranges(rt: HostRuntime) {
    let writes = [Write(2, b"CDEF"), Write(4, b"xyzw"), Write(7, b"12345")];
    let wanted: [&[u8]; 6] = [
        b"abcdefgh",
        b"abCDxyz12345",
        b"ab\0\0\0\0\0\0\0\0\0\0",
        b"ab\x01\x01\x01\x01\x01\x01\x01\x01\x01\x01",
        b"ab\x07\x07\x07\x07\x07\x07\x07\x07\x07\x07",
        b"abCDxyg12",
    ];
    leaves(&rt, Half::Zero, b"abcdefgh", &writes, &wanted);
    leaves(&rt, Half::One, b"abcdefgh", &writes, &wanted);
}

#[test]
fn crashes_leave_ranges_apart(rt: HostRuntime) {
    let writes = [Write(6, b"GH"), Write(1, b"BCD"), Write(3, b"")];
    let wanted: [&[u8]; 6] = [
        b"abcdefghi",
        b"aBCDefGHi",
        b"a\0\0\0ef\0\0i",
        b"a\x01\x01\x01ef\x01\x01i",
        b"a\x07\x07\x07ef\x07\x07i",
        b"aBcdefGhi",
    ];
    leaves(&rt, Half::One, b"abcdefghi", &writes, &wanted);
}

// The rest of a range is in the first half of an older one.
#[test]
fn first_half_counts_where_any_range_has_it(rt: HostRuntime) {
    let writes = [Write(0, b"AAAAAAAA"), Write(1, b"bc")];
    let wanted: [&[u8]; 6] = [
        b"01234567",
        b"AbcAAAAA",
        b"\0\0\0\0\0\0\0\0",
        b"\x01\x01\x01\x01\x01\x01\x01\x01",
        b"\x07\x07\x07\x07\x07\x07\x07\x07",
        b"AbcA4567",
    ];
    leaves(&rt, Half::Zero, b"01234567", &writes, &wanted);
}

// Past the old end, a place outside every first half is cut off, or 00 before a place inside one.
#[test]
fn crashes_cut_off_what_is_past_the_old_end(rt: HostRuntime) {
    let writes = [Write(4, b"EFGH"), Write(8, b"IJKLM"), Write(13, b"N")];
    let wanted: [&[u8]; 6] = [
        b"abcd",
        b"abcdEFGHIJKLMN",
        b"abcd\0\0\0\0\0\0\0\0\0\0",
        b"abcd\x01\x01\x01\x01\x01\x01\x01\x01\x01\x01",
        b"abcd\x07\x07\x07\x07\x07\x07\x07\x07\x07\x07",
        b"abcdEF\0\0IJ",
    ];
    leaves(&rt, Half::Zero, b"abcd", &writes, &wanted);
    let one = [Write(0, b"Z")];
    let wanted: [&[u8]; 6] = [b"", b"Z", b"\0", b"\x01", b"\x07", b""];
    leaves(&rt, Half::One, b"", &one, &wanted);
}

// A disk whose half 0 is all durable, and half 1 not at all.
fn half_sure(rt: &(impl AllocGlobal + Abort)) -> MemDisk {
    let mut disk = written(rt, Half::Zero, b"sure", &[]);
    puts(rt, &mut disk, Half::One, 0, b"lost");
    syncs(rt, &mut disk, Half::Zero);
    disk
}

// A sync of one half makes nothing durable in the other one.
#[test]
fn crashes_leave_what_was_synced(rt: HostRuntime) {
    let mut left = half_sure(&rt).crash(CrashChoice::Old);
    has_bytes(&rt, &mut left, Half::Zero, b"sure");
    has_len(&rt, &mut left, Half::One, 0);
}

#[test]
fn bytes_written_through_are_sure(rt: HostRuntime) {
    let mut disk = half_sure(&rt).crash(CrashChoice::Sevens);
    if let Ok(end) = disk.len(Half::One) {
        assert!(rt; write_and_sync(&mut disk, Half::One, end, b"kept").is_ok());
    }
    let mut left = disk.crash(CrashChoice::Old);
    has_bytes(&rt, &mut left, Half::One, b"\x07\x07\x07\x07kept");
}

// No calls are on record.
fn has_no_calls(rt: &impl Abort, disk: &MemDisk) {
    assert!(rt; disk.calls().is_empty());
}

// These calls are on record, in words.
fn has_calls(rt: &(impl AllocGlobal + Abort), disk: &MemDisk, wanted: &str) {
    let text = format!(in rt.alloc(); "{:?}", disk.calls()).expect(rt, "memory");
    assert_eq!(rt; text.as_str(), wanted);
}

// A write, a sync, a crash, and a second crash that changes nothing.
#[test]
fn calls_are_on_record(rt: HostRuntime) {
    let mut disk = MemDisk::new(rt.alloc());
    has_no_calls(&rt, &disk);
    puts(&rt, &mut disk, Half::One, 0, b"a");
    syncs(&rt, &mut disk, Half::One);
    puts(&rt, &mut disk, Half::One, 1, b"bc");
    let again = disk.crash(CrashChoice::New).crash(CrashChoice::Old);
    has_calls(
        &rt,
        &again,
        "[Write(One, 0, [97]), Sync(One), Write(One, 1, [98, 99]), Crash(New)]",
    );
}

// A half ends there, or two bytes before.
fn has_end(rt: &impl Abort, disk: &mut MemDisk, end: u64) {
    let last = disk.len(Half::One);
    assert!(rt; last == Ok(end) || last == Ok(end.saturating_sub(2)));
}

// Whatever memory is refused, the answers and the failures agree with the state of the disk.
#[test]
fn refused_memory_is_a_fault_that_changes_nothing(rt: HostRuntime) {
    let mut disk = MemDisk::new(rt.alloc());
    let mut end = 0u64;
    let mut faults = 0u64;
    for _ in 0..8 {
        if put(&mut disk, Half::One, end, b"abcd") {
            end = end.saturating_add(4);
        } else {
            faults = faults.saturating_add(1);
        }
        if disk.sync(Half::One).is_err() {
            faults = faults.saturating_add(1);
        }
        has_len(&rt, &mut disk, Half::One, end);
        has_failures(&rt, &disk, faults);
    }
    let mut left = disk.crash(CrashChoice::FirstHalves);
    has_end(&rt, &mut left, end);
}

// Small writes after a large file cost what they write.
#[test]
fn small_writes_after_a_large_file(rt: HostRuntime) {
    let mut disk = MemDisk::new(rt.alloc());
    let large = vec![in rt.alloc(); 7u8; 1_000_000].expect(&rt, "memory");
    assert!(rt; write_and_sync(&mut disk, Half::One, 0, &large).is_ok());
    for k in 0..20_000 {
        puts(&rt, &mut disk, Half::One, 1_000_000 + k, &[1]);
        if k % 8 == 0 {
            syncs(&rt, &mut disk, Half::One);
        }
    }
    has_len(&rt, &mut disk, Half::One, 1_020_000);
    let mut left = disk.crash(CrashChoice::Old);
    has_len(&rt, &mut left, Half::One, 1_019_993);
}
