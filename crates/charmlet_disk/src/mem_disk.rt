//! A disk in memory, with a record of its calls, so that a crash can leave anything that a disk
//! allows.
ghost use Rattle.std.specs.Prelude.{◌≡◌, ◌≤◌, ◌<◌, ◌+◌, ◌++◌, ◌∷◌, [], is_ok, length, vec_len, vec_capacity, true, false, OnOk, OnErr};
ghost use Rattle.charmlet_model.specs.declared.half.Half.TheVariants.{Zero, One};
ghost use Rattle.charmlet_model.specs.Half.{other};
ghost use Rattle.charmlet_disk.specs.Disk.{faults_after};
ghost use Rattle.charmlet_disk.specs.File.{File, clean, wrote};
ghost use Rattle.charmlet_disk.specs.Memory.{file_of, replayed, Adds};
ghost use Rattle.charmlet_disk.specs.Sound.{IsSound};

mod call;
mod mem_file;
mod ranges;

pub use crate::mem_disk::call::Call;
use crate::mem_disk::mem_file::MemFile;
use crate::{CrashChoice, DeviceFault, Disk};
use charmlet_model::Half;
use std::alloc::{AllocError, Global};

/// A disk in memory, which is honest. It fails only when out of memory, and then nothing has
/// changed.
///
/// A write copies its bytes, a sync what was written to its half since the last one, and a crash
/// the file. The record of calls grows as long as the disk lives.
#[derive(Drop)]
pub struct MemDisk {
    alloc: Global,
    zero: MemFile,
    one: MemFile,
    /// Each call that changed the disk, the oldest first. While some bytes aren't durable, there is
    /// room for a crash.
    calls: Vec<Call>,
    faults: u64,
    ghost zero_replayed: { file_of zero ≡ replayed Zero calls.items (clean []) },
    ghost one_replayed: { file_of one ≡ replayed One calls.items (clean []) },
    ghost room: { vec_capacity calls ≤ vec_len calls
        → ((file_of zero).ranges ≡ []) × ((file_of one).ranges ≡ []) },
}

// Writes to a half, and records the call. When out of memory, both stay as they are.
fn write_to(
    alloc: Global,
    half: Half,
    file: &mut MemFile,
    calls: &mut Vec<Call>,
    offset: usize,
    bytes: &[u8],
) -> Result<(), AllocError>
    requires { offset ≤ length (file_of file.old).now }
    ensures written { OnOk result (file_of file.new ≡ wrote offset bytes.now (file_of file.old)) }
    ensures added { OnOk result
        (Adds half (file_of file.old) (file_of file.new) calls.old.items calls.new.items) }
    ensures file { OnErr result (file_of file.new ≡ file_of file.old) }
    ensures calls { OnErr result (calls.new.items ≡ calls.old.items) }
    ensures room { vec_capacity calls.new ≤ vec_len calls.new →
        (vec_capacity calls.old ≤ vec_len calls.old) × (file_of file.new ≡ file_of file.old) }
    ensures replayed { file_of file.old ≡ replayed half calls.old.items (clean [])
        → file_of file.new ≡ replayed half calls.new.items (clean []) }
    ensures other { (f : File) → f ≡ replayed (other half) calls.old.items (clean [])
        → f ≡ replayed (other half) calls.new.items (clean []) }
{
    let written = bytes.to_vec(alloc)?;
    calls.reserve(2)?;
    file.write(offset, bytes)?;
    calls.push_reserved(Call::Write(half, offset, written));
    Ok(())
}

// Makes a half durable, and records the call. When out of memory, both stay as they are.
fn sync_to(half: Half, file: &mut MemFile, calls: &mut Vec<Call>) -> Result<(), AllocError>
    requires { IsSound (file_of file.old) }
    ensures synced { OnOk result (file_of file.new ≡ clean (file_of file.old).now) }
    ensures added { OnOk result
        (Adds half (file_of file.old) (file_of file.new) calls.old.items calls.new.items) }
    ensures file { OnErr result (file_of file.new ≡ file_of file.old) }
    ensures calls { OnErr result (calls.new.items ≡ calls.old.items) }
    ensures room { vec_capacity calls.new ≤ vec_len calls.new →
        (vec_capacity calls.old ≤ vec_len calls.old) × (file_of file.new ≡ file_of file.old) }
    ensures replayed { file_of file.old ≡ replayed half calls.old.items (clean [])
        → file_of file.new ≡ replayed half calls.new.items (clean []) }
    ensures other { (f : File) → f ≡ replayed (other half) calls.old.items (clean [])
        → f ≡ replayed (other half) calls.new.items (clean []) }
{
    calls.reserve(2)?;
    file.make_sure();
    calls.push_reserved(Call::Sync(half));
    Ok(())
}

impl MemDisk {
    ghost use Rattle.charmlet_disk.specs.File.{MayLeave};
    ghost use Rattle.charmlet_disk.specs.Crash.{left_by};
    ghost use Rattle.charmlet_disk.specs.MemDisk.{files, calls_of, faults_of, Records, Keeps};

    /// An empty disk, whose bytes are allocated by `alloc`.
    pub fn new(alloc: Global) -> MemDisk
        ensures files { (half : _) → files result half ≡ clean [] }
        ensures calls { calls_of result ≡ [] }
        ensures faults { faults_of result ≡ 0 }
    {
        MemDisk {
            alloc,
            zero: MemFile::new(alloc),
            one: MemFile::new(alloc),
            calls: Vec::new(alloc),
            faults: 0,
        }
    }

    /// The writes, syncs and crashes so far, the oldest first. The list has neither failed calls
    /// nor crashes that found all written bytes durable.
    pub fn calls(&self) -> &[Call]
        ensures { result.now ≡ calls_of self.now }
    {
        &self.calls
    }

    /// The disk that a crash leaves, by its choice: all of its bytes are durable. It takes no
    /// memory.
    pub fn crash(self, choice: CrashChoice) -> MemDisk
        ensures left { (half : _) → files result half ≡ clean (left_by choice (files self half)) }
        ensures lawful { MayLeave (files self) (λ half. left_by choice (files self half)) }
        ensures faults { faults_of result ≡ faults_of self }
    {
        if self.is_sure() {
            return self;
        }
        let MemDisk {
            alloc,
            mut zero,
            mut one,
            mut calls,
            faults,
        } = self;
        zero.leave(choice);
        one.leave(choice);
        calls.push_reserved(Call::Crash(choice));
        MemDisk {
            alloc,
            zero,
            one,
            calls,
            faults,
        }
    }

    // Whether nothing was written to either half since its last sync, so that a crash changes
    // nothing.
    fn is_sure(&self) -> bool
        ensures sure { result ≡ true → (half : _) → (files self.now half).ranges ≡ [] }
        ensures room { result ≡ false → vec_len self.now.calls < vec_capacity self.now.calls }
    {
        self.zero.is_clean() && self.one.is_clean()
    }

    // Writes. When out of memory, everything stays as it is.
    fn try_write(&mut self, half: Half, offset: usize, bytes: &[u8]) -> Result<(), AllocError>
        requires { offset ≤ length (files self.old half).now }
        ensures written { OnOk result (files self.new half
            ≡ wrote offset bytes.now (files self.old half)) }
        ensures other { files self.new (other half) ≡ files self.old (other half) }
        ensures recorded { OnOk result (Records self.old self.new) }
        ensures refused { OnErr result (Keeps self.old self.new) }
        ensures faults { faults_of self.new ≡ faults_of self.old }
    {
        let alloc = self.alloc;
        match half {
            Half::Zero => write_to(
                alloc,
                Half::Zero,
                &mut self.zero,
                &mut self.calls,
                offset,
                bytes,
            ),
            Half::One => write_to(
                alloc,
                Half::One,
                &mut self.one,
                &mut self.calls,
                offset,
                bytes,
            ),
        }
    }

    // Makes a half durable. When out of memory, everything stays as it is.
    fn try_sync(&mut self, half: Half) -> Result<(), AllocError>
        ensures synced { OnOk result (files self.new half ≡ clean (files self.old half).now) }
        ensures other { files self.new (other half) ≡ files self.old (other half) }
        ensures recorded { OnOk result (Records self.old self.new) }
        ensures refused { OnErr result (Keeps self.old self.new) }
        ensures faults { faults_of self.new ≡ faults_of self.old }
    {
        match half {
            Half::Zero => sync_to(Half::Zero, &mut self.zero, &mut self.calls),
            Half::One => sync_to(Half::One, &mut self.one, &mut self.calls),
        }
    }

    // What a read of a half gives.
    fn bytes(&self, half: Half) -> &[u8]
        ensures { result.now ≡ (files self.now half).now }
    {
        match half {
            Half::Zero => self.zero.bytes(),
            Half::One => self.one.bytes(),
        }
    }
}

// A refusal of memory is a fault, and counts.
fn counted(done: Result<(), AllocError>, faults: &mut u64) -> Result<(), DeviceFault>
    ensures variant { is_ok result ≡ is_ok done }
    ensures counted { faults.new ≡ faults_after (is_ok result) faults.old }
{
    if done.is_err() {
        *faults = faults.saturating_add(1);
        return Err(DeviceFault);
    }
    Ok(())
}

impl Disk for MemDisk {
    ghost use Rattle.std.specs.Prelude.{◌≡◌, ◌+◌, ◌≤◌, ℕ, List, Ok, IsOk, OnOk, OnErr, is_ok, length, take, drop};
    ghost use Rattle.charmlet_model.specs.Half.{other};
    ghost use Rattle.charmlet_disk.specs.Disk.{Elapses, faults_after};
    ghost use Rattle.charmlet_disk.specs.File.{MayBeLeft, MayLeave, clean, wrote};
    ghost use Rattle.charmlet_disk.specs.MemDisk.{files, calls_of, faults_of, Records, Keeps};
    ghost use Rattle.charmlet_disk.specs.Memory.{LeftSince};
    ghost use Rattle.charmlet_disk.specs.MemDiskLaws.{files_are_left, counts_among, only_last};

    ghost honest = { λ _. Unit {0} };

    ghost file = { files };

    ghost moment = { λ disk. length (calls_of disk) };

    ghost since = { λ disk. LeftSince (calls_of disk) };

    ghost faults = { faults_of };

    ghost reads_are_left = { λ disk honest. files_are_left disk };

    ghost counts_now = { λ disk t c honest. counts_among disk t c };

    ghost only_now = { λ disk c honest. only_last disk c };

    fn len(&mut self, half: Half) -> Result<u64, DeviceFault>
        ensures length { result ≡ Ok (length (files self.old half).now) }
        ensures same { self.new ≡ self.old }
        ensures time { Elapses (length (calls_of self.old)) (length (calls_of self.new))
            (LeftSince (calls_of self.old)) (LeftSince (calls_of self.new))
            (MayLeave (files self.new)) }
    {
        Ok(self.bytes(half).len() as u64)
    }

    fn read_at(&mut self, half: Half, offset: u64, into: &mut [u8]) -> Result<(), DeviceFault>
        requires { offset + length into.old ≤ length (files self.old half).now }
        ensures ok { IsOk result }
        ensures bytes { into.new ≡ take (length into.old) (drop offset (files self.old half).now) }
        ensures same { self.new ≡ self.old }
        ensures time { Elapses (length (calls_of self.old)) (length (calls_of self.new))
            (LeftSince (calls_of self.old)) (LeftSince (calls_of self.new))
            (MayLeave (files self.new)) }
    {
        let offset = offset as usize;
        let end = offset + into.len();
        into.copy_from_slice(&self.bytes(half)[offset..end]);
        Ok(())
    }

    fn write_at(&mut self, half: Half, offset: u64, bytes: &[u8]) -> Result<(), DeviceFault>
        requires { offset ≤ length (files self.old half).now }
        ensures written { OnOk result (files self.new half
            ≡ wrote offset bytes.now (files self.old half)) }
        ensures recorded { OnOk result (Records self.old self.new) }
        ensures refused { OnErr result (Keeps self.old self.new) }
        ensures torn { (left : List ℕ) → MayBeLeft (files self.new half) left
            → MayBeLeft (wrote offset bytes.now (files self.old half)) left }
        ensures other { files self.new (other half) ≡ files self.old (other half) }
        ensures time { Elapses (length (calls_of self.old)) (length (calls_of self.new))
            (LeftSince (calls_of self.old)) (LeftSince (calls_of self.new))
            (MayLeave (files self.new)) }
        ensures counted { faults_of self.new ≡ faults_after (is_ok result) (faults_of self.old) }
    {
        let done = self.try_write(half, offset as usize, bytes);
        counted(done, &mut self.faults)
    }

    fn sync(&mut self, half: Half) -> Result<(), DeviceFault>
        ensures durable { OnOk result (files self.new half ≡ clean (files self.old half).now) }
        ensures recorded { OnOk result (Records self.old self.new) }
        ensures refused { OnErr result (Keeps self.old self.new) }
        ensures other { files self.new (other half) ≡ files self.old (other half) }
        ensures time { Elapses (length (calls_of self.old)) (length (calls_of self.new))
            (LeftSince (calls_of self.old)) (LeftSince (calls_of self.new))
            (MayLeave (files self.new)) }
        ensures counted { faults_of self.new ≡ faults_after (is_ok result) (faults_of self.old) }
    {
        let done = self.try_sync(half);
        counted(done, &mut self.faults)
    }

    fn failures(&self) -> u64 {
        self.faults
    }
}
