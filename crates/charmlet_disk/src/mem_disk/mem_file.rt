//! One file of a disk in memory.
ghost use Rattle.std.specs.Prelude.{◌≡◌, ◌<◌, ◌≤◌, ◌+◌, ◌++◌, ◌∷◌, [], List, ℕ, ◌-◌, length, replicate, take, drop, vec_len, vec_capacity, OnOk, OnErr};
ghost use Rattle.charmlet_disk.specs.File.{overwritten};

use crate::CrashChoice;
use crate::mem_disk::ranges::{copy, end_of, fill, halve};
use std::alloc::{AllocError, Global};

/// A file in memory: the bytes that a read gives, its bytes at the last sync, and the ranges that
/// were written since.
#[derive(Drop)]
pub struct MemFile {
    bytes: Vec<u8>,
    /// The bytes at the last sync, with room for as many as there are now.
    sure: Vec<u8>,
    /// The offset and the length of each write since, the oldest first.
    ranges: Vec<(usize, usize)>,
    ghost room: { length bytes.items ≤ vec_capacity sure },
}

// Makes room for bytes up to this length.
fn reserve_up_to(bytes: &mut Vec<u8>, length: usize) -> Result<(), AllocError>
    ensures same { bytes.new.items ≡ bytes.old.items }
    ensures kept { vec_capacity bytes.old ≤ vec_capacity bytes.new }
    ensures room { OnOk result (length ≤ vec_capacity bytes.new) }
{
    bytes.reserve(length.saturating_sub(bytes.len()))
}

// Puts bytes in place of those from an offset on, and past the end.
fn overwrite(old: &mut Vec<u8>, offset: usize, bytes: &[u8]) -> Result<(), AllocError>
    requires { offset ≤ length old.old.items }
    ensures ok { OnOk result (old.new.items ≡ overwritten offset bytes.now old.old.items) }
    ensures err { OnErr result (old.new.items ≡ old.old.items) }
{
    let inside = old.len() - offset;
    if bytes.len() <= inside {
        old[offset..offset + bytes.len()].copy_from_slice(bytes);
        return Ok(());
    }
    old.extend_from_slice(&bytes[inside..])?;
    old[offset..offset + inside].copy_from_slice(&bytes[..inside]);
    Ok(())
}

// Cuts `bytes` to the length of `others`, and writes `others` over them.
fn cut_to(bytes: &mut Vec<u8>, others: &[u8])
    requires { length others.now ≤ length bytes.old.items }
    ensures same { bytes.new.items ≡ others.now }
{
    bytes.truncate(others.len());
    bytes.copy_from_slice(others);
}

// Appends bytes for which there is room.
fn append(bytes: &mut Vec<u8>, others: &[u8])
    requires { length bytes.old.items + length others.now ≤ vec_capacity bytes.old }
    ensures longer { bytes.new.items ≡ bytes.old.items ++ others.now }
    ensures capacity { vec_capacity bytes.old ≤ vec_capacity bytes.new }
{
    let Ok(()) = bytes.extend_from_slice(others) else {
        unreachable!()
    };
}

// Appends zeros up to a length for which there is room.
fn pad(bytes: &mut Vec<u8>, count: usize)
    requires longer { length bytes.old.items ≤ count }
    requires room { count ≤ vec_capacity bytes.old }
    ensures padded { bytes.new.items ≡ bytes.old.items
        ++ replicate (count - length bytes.old.items) 0 }
    ensures capacity { vec_capacity bytes.old ≤ vec_capacity bytes.new }
{
    let Ok(()) = bytes.resize(count, 0) else {
        unreachable!()
    };
}

impl MemFile {
    ghost use Rattle.std.specs.Prelude.{◌≡◌, ◌≢◌, ◌≤◌, [], true, false, length, OnOk, OnErr};
    ghost use Rattle.charmlet_disk.specs.File.{wrote, clean};
    ghost use Rattle.charmlet_disk.specs.Crash.{left_by, filled, half_written};
    ghost use Rattle.charmlet_disk.specs.Memory.{file_of};
    ghost use Rattle.charmlet_disk.specs.Sound.{IsSound};

    /// An empty file.
    pub fn new(alloc: Global) -> MemFile
        ensures { file_of result ≡ clean [] }
    {
        MemFile {
            bytes: Vec::new(alloc),
            sure: Vec::new(alloc),
            ranges: Vec::new(alloc),
        }
    }

    /// What a read gives.
    pub fn bytes(&self) -> &[u8]
        ensures { result.now ≡ (file_of self.now).now }
    {
        &self.bytes
    }

    /// Whether nothing was written since the last sync.
    pub fn is_clean(&self) -> bool
        ensures clean { result ≡ true → (file_of self.now).ranges ≡ [] }
        ensures written { result ≡ false → (file_of self.now).ranges ≢ [] }
    {
        self.ranges.is_empty()
    }

    /// Writes bytes at an offset. When out of memory, the file stays as it is.
    pub fn write(&mut self, offset: usize, bytes: &[u8]) -> Result<(), AllocError>
        requires { offset ≤ length (file_of self.old).now }
        ensures ok { OnOk result (file_of self.new ≡ wrote offset bytes.now (file_of self.old)) }
        ensures err { OnErr result (file_of self.new ≡ file_of self.old) }
    {
        let end = offset.checked_add(bytes.len()).ok_or(AllocError)?;
        self.ranges.reserve(1)?;
        reserve_up_to(&mut self.sure, end)?;
        overwrite(&mut self.bytes, offset, bytes)?;
        self.ranges.push_reserved((offset, bytes.len()));
        Ok(())
    }

    /// Makes all bytes of the file durable. It copies what was written since the last sync, and
    /// takes no memory.
    pub fn make_sure(&mut self)
        requires { IsSound (file_of self.old) }
        ensures { file_of self.new ≡ clean (file_of self.old).now }
    {
        let old_end = self.sure.len();
        append(&mut self.sure, &self.bytes[old_end..]);
        copy(&mut self.sure, &self.bytes, &self.ranges);
        self.ranges.clear();
    }

    /// Turns the file into what a crash leaves of it. It takes no memory.
    pub fn leave(&mut self, choice: CrashChoice)
        requires { IsSound (file_of self.old) }
        ensures { file_of self.new ≡ clean (left_by choice (file_of self.old)) }
    {
        match choice {
            CrashChoice::Old => self.go_back(),
            CrashChoice::New => self.make_sure(),
            CrashChoice::Zeros => self.fill(0),
            CrashChoice::Ones => self.fill(1),
            CrashChoice::Sevens => self.fill(7),
            CrashChoice::FirstHalves => self.keep_first_halves(),
        }
    }

    // Goes back to the bytes at the last sync.
    fn go_back(&mut self)
        requires { IsSound (file_of self.old) }
        ensures { file_of self.new ≡ clean (file_of self.old).sure }
    {
        cut_to(&mut self.bytes, &self.sure);
        self.ranges.clear();
    }

    // Sets each place that was written to `byte`.
    fn fill(&mut self, byte: u8)
        ensures { file_of self.new ≡ clean (filled byte (file_of self.old)) }
    {
        fill(&mut self.bytes, &self.ranges, byte);
        self.sure.clear();
        append(&mut self.sure, &self.bytes);
        self.ranges.clear();
    }

    // Keeps only the first half of each range that was written.
    fn keep_first_halves(&mut self)
        requires { IsSound (file_of self.old) }
        ensures { file_of self.new ≡ clean (half_written (file_of self.old)) }
    {
        halve(&mut self.ranges);
        let end = self.sure.len().max(end_of(&self.ranges));
        pad(&mut self.sure, self.bytes.len());
        copy(&mut self.sure, &self.bytes, &self.ranges);
        self.sure.truncate(end);
        cut_to(&mut self.bytes, &self.sure);
        self.ranges.clear();
    }
}
