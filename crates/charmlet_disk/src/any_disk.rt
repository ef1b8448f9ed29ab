//! One type for the disks that the program's engine uses: a folder's files, memory, or memory that
//! fails from some call on.

use crate::{CrashChoice, DeviceFault, Disk, FileDisk, FuseDisk, MemDisk};
use charmlet_model::Half;
use std::alloc::{AllocError, Global};
use std::io;

/// Any of the program's disks, so that code generic over disks is compiled for one type.
///
/// It is honest if and only if it is in memory. Each call is passed on once.
#[derive(Drop)]
pub enum AnyDisk {
    /// The two files of a folder.
    Folder(FileDisk),
    /// In memory. It fails only when out of memory.
    Memory(MemDisk),
    /// In memory, but each write and each sync fails from some call on.
    Failing(FuseDisk<MemDisk>),
}

impl AnyDisk {
    ghost use Rattle.std.specs.Prelude.{◌≡◌, IfOk, None, Some, []};
    ghost use Rattle.charmlet_disk.specs.AnyDisk.AnyDisk.{calls_left, cause_of, faults_beneath, faults_of, files_of, is_honest, IsFolder};
    ghost use Rattle.charmlet_disk.specs.Crash.{left_by};
    ghost use Rattle.charmlet_disk.specs.Disk.{IsSettled};
    ghost use Rattle.charmlet_disk.specs.File.{MayLeave, clean};

    /// A disk over the two files of the folder at this path, with no failure counted. It fails only
    /// when there is no memory for the path.
    pub fn folder(rt: HostRuntime, path: &str) -> Result<AnyDisk, AllocError>
        ensures folder { IfOk result IsFolder }
        ensures faults { IfOk result (λ disk. faults_of disk ≡ 0) }
    {
        Ok(AnyDisk::Folder(FileDisk::new(rt, path)?))
    }

    /// An empty disk in memory, with no failure counted.
    pub fn memory(alloc: Global) -> AnyDisk
        ensures honest { is_honest result }
        ensures files { (half : _) → files_of result half ≡ clean [] }
        ensures calls { calls_left result ≡ None }
        ensures faults { faults_of result ≡ 0 }
    {
        AnyDisk::Memory(MemDisk::new(alloc))
    }

    /// An empty disk in memory that passes `calls` writes and syncs, and then fails each one, with
    /// no failure counted.
    pub fn failing(alloc: Global, calls: u64) -> AnyDisk
        ensures honest { is_honest result }
        ensures files { (half : _) → files_of result half ≡ clean [] }
        ensures calls { calls_left result ≡ Some calls }
        ensures faults { faults_of result ≡ 0 }
    {
        AnyDisk::Failing(FuseDisk::new(MemDisk::new(alloc), calls))
    }

    /// Why the first fault of a folder's disk occurred, as [`FileDisk::cause`] says it; `None` for
    /// a disk in memory.
    pub fn cause(&self) -> Option<io::Error>
        ensures { result ≡ cause_of self.now }
    {
        match self {
            AnyDisk::Folder(disk) => disk.cause(),
            AnyDisk::Memory(_) | AnyDisk::Failing(_) => None,
        }
    }

    /// The disk that a crash leaves of a disk in memory, by its choice: a disk in memory that
    /// doesn't fail by itself, and whose bytes are all durable. A folder's disk stays as it is.
    pub fn crash(self, choice: CrashChoice) -> AnyDisk
        ensures left { is_honest self → (half : _) →
            files_of result half ≡ clean (left_by choice (files_of self half)) }
        ensures lawful { is_honest self →
            MayLeave (files_of self) (λ half. left_by choice (files_of self half)) }
        ensures settled { is_honest result → IsSettled (files_of result) }
        ensures honest { (is_honest self → is_honest result) × (is_honest result → is_honest self) }
        ensures folder { IsFolder self → result ≡ self }
        ensures calls { calls_left result ≡ None }
        ensures faults { faults_of result ≡ faults_beneath self }
    {
        match self {
            AnyDisk::Folder(disk) => AnyDisk::Folder(disk),
            AnyDisk::Memory(disk) => AnyDisk::Memory(disk.crash(choice)),
            AnyDisk::Failing(fuse) => AnyDisk::Memory(fuse.inner().crash(choice)),
        }
    }
}

impl Disk for AnyDisk {
    ghost use Rattle.std.specs.Prelude.{◌≡◌, ◌≤◌, ◌+◌, List, ℕ, length, take, drop, is_ok, IfOk, OnOk, OnErr};
    ghost use Rattle.charmlet_model.specs.Half.{other};
    ghost use Rattle.charmlet_disk.specs.File.{MayBeLeft, MayLeave, wrote, clean};
    ghost use Rattle.charmlet_disk.specs.Disk.{Elapses, SameFiles, faults_after};
    ghost use Rattle.charmlet_disk.specs.AnyDisk.AnyDisk.{faults_of, files_of, is_honest, left_since, moment_of, Burns, PassesFree};
    ghost use Rattle.charmlet_disk.specs.AnyDisk.AnyDiskLaws.{counts_among, files_are_left, only_last};

    ghost honest = { is_honest };

    ghost file = { files_of };

    ghost moment = { moment_of };

    ghost since = { left_since };

    ghost faults = { faults_of };

    ghost reads_are_left = { files_are_left };

    ghost counts_now = { counts_among };

    ghost only_now = { only_last };

    fn len(&mut self, half: Half) -> Result<u64, DeviceFault>
        ensures passes { PassesFree self.old self.new }
        ensures length { is_honest self.old →
            IfOk result (λ n. n ≡ length (files_of self.old half).now) }
        ensures same { is_honest self.old → SameFiles (files_of self.old) (files_of self.new) }
        ensures time { is_honest self.old → Elapses (moment_of self.old) (moment_of self.new)
            (left_since self.old) (left_since self.new) (MayLeave (files_of self.new)) }
        ensures honest { (is_honest self.old → is_honest self.new)
            × (is_honest self.new → is_honest self.old) }
        ensures counted { faults_of self.new ≡ faults_after (is_ok result) (faults_of self.old) }
    {
        match self {
            AnyDisk::Folder(disk) => disk.len(half),
            AnyDisk::Memory(disk) => disk.len(half),
            AnyDisk::Failing(fuse) => fuse.len(half),
        }
    }

    fn read_at(&mut self, half: Half, offset: u64, into: &mut [u8]) -> Result<(), DeviceFault>
        requires { is_honest self.old →
            offset + length into.old ≤ length (files_of self.old half).now }
        ensures passes { PassesFree self.old self.new }
        ensures bytes { is_honest self.old → OnOk result
            (into.new ≡ take (length into.old) (drop offset (files_of self.old half).now)) }
        ensures same { is_honest self.old → SameFiles (files_of self.old) (files_of self.new) }
        ensures time { is_honest self.old → Elapses (moment_of self.old) (moment_of self.new)
            (left_since self.old) (left_since self.new) (MayLeave (files_of self.new)) }
        ensures honest { (is_honest self.old → is_honest self.new)
            × (is_honest self.new → is_honest self.old) }
        ensures counted { faults_of self.new ≡ faults_after (is_ok result) (faults_of self.old) }
    {
        match self {
            AnyDisk::Folder(disk) => disk.read_at(half, offset, into),
            AnyDisk::Memory(disk) => disk.read_at(half, offset, into),
            AnyDisk::Failing(fuse) => fuse.read_at(half, offset, into),
        }
    }

    fn write_at(&mut self, half: Half, offset: u64, bytes: &[u8]) -> Result<(), DeviceFault>
        requires { is_honest self.old → offset ≤ length (files_of self.old half).now }
        ensures burns { Burns self.old self.new (is_ok result) }
        ensures written { is_honest self.old → OnOk result
            (files_of self.new half ≡ wrote offset bytes.now (files_of self.old half)) }
        ensures torn { is_honest self.old → (left : List ℕ) →
            MayBeLeft (files_of self.new half) left
            → MayBeLeft (wrote offset bytes.now (files_of self.old half)) left }
        ensures other { is_honest self.old →
            files_of self.new (other half) ≡ files_of self.old (other half) }
        ensures time { is_honest self.old → Elapses (moment_of self.old) (moment_of self.new)
            (left_since self.old) (left_since self.new) (MayLeave (files_of self.new)) }
        ensures honest { (is_honest self.old → is_honest self.new)
            × (is_honest self.new → is_honest self.old) }
        ensures counted { faults_of self.new ≡ faults_after (is_ok result) (faults_of self.old) }
    {
        match self {
            AnyDisk::Folder(disk) => disk.write_at(half, offset, bytes),
            AnyDisk::Memory(disk) => disk.write_at(half, offset, bytes),
            AnyDisk::Failing(fuse) => fuse.write_at(half, offset, bytes),
        }
    }

    fn sync(&mut self, half: Half) -> Result<(), DeviceFault>
        ensures burns { Burns self.old self.new (is_ok result) }
        ensures durable { is_honest self.old →
            OnOk result (files_of self.new half ≡ clean (files_of self.old half).now) }
        ensures failed { is_honest self.old →
            OnErr result (files_of self.new half ≡ files_of self.old half) }
        ensures other { is_honest self.old →
            files_of self.new (other half) ≡ files_of self.old (other half) }
        ensures time { is_honest self.old → Elapses (moment_of self.old) (moment_of self.new)
            (left_since self.old) (left_since self.new) (MayLeave (files_of self.new)) }
        ensures honest { (is_honest self.old → is_honest self.new)
            × (is_honest self.new → is_honest self.old) }
        ensures counted { faults_of self.new ≡ faults_after (is_ok result) (faults_of self.old) }
    {
        match self {
            AnyDisk::Folder(disk) => disk.sync(half),
            AnyDisk::Memory(disk) => disk.sync(half),
            AnyDisk::Failing(fuse) => fuse.sync(half),
        }
    }

    fn failures(&self) -> u64 {
        match self {
            AnyDisk::Folder(disk) => disk.failures(),
            AnyDisk::Memory(disk) => disk.failures(),
            AnyDisk::Failing(fuse) => fuse.failures(),
        }
    }
}
