//! A disk over two files of a folder.

mod faults;
mod folder;
mod half_file;

use crate::{DeviceFault, Disk};
use charmlet_model::Half;
use faults::Faults;
use folder::Folder;
use std::alloc::AllocError;
use std::io;

/// A disk over the files `half0` and `half1` of a folder. Offsets and lengths are in bytes.
///
/// # Files
///
/// A missing file counts as empty, and its sync is `Ok`. Its first write makes it, and the sync
/// after that also syncs the folder, so that the name is durable. Reading makes no file, and no
/// other file is ever made.
///
/// Reads and writes are whole: a short one is continued, and one that a signal interrupts is tried
/// again. A file that the process may not write is opened for reading alone, and its writes are
/// faults.
///
/// # Lock
///
/// The folder itself carries the lock (`flock`), so there is no third file. The first call that
/// finds the folder locks it, without waiting. The lock is held until the disk is dropped or the
/// process ends. As long as another disk has the lock, in this process or in another one, each call
/// is a fault, and the next call tries again. The lock binds only programs that ask for it.
///
/// # Faults
///
/// Each fault adds one to the count of failures, up to 2^64 - 1, where the count stays. A call is a
/// fault only in these cases:
///
/// - The folder is missing or may not be read, or its path names something else, or another folder
///   than the locked one. Once the locked folder is back, the disk goes on.
/// - Another disk has the lock.
/// - The half isn't a regular file: it is a folder or a link, say. Or it has a second name when it
///   is opened, since the lock of another folder would not protect it. Or it was removed since.
/// - A read isn't inside the file, or a write begins past its end.
/// - The system refuses a call: the process has no right to it, say, the device is full or broken,
///   or the file has the greatest length that it may have.
/// - An earlier sync failed: that of an open file, or that of a file that was just found.
///
/// [`FileDisk::cause`] tells why the first fault occurred.
///
/// A read that fails may have changed the buffer. A write that fails may have made the file, and
/// written some of its bytes.
///
/// # Syncs
///
/// `sync` calls `fdatasync`, which writes out the contents and whatever is needed to read them
/// back, including the length. Only times of access and change may be lost. If the name may not be
/// durable yet, `sync` also calls `fsync` for the folder. It does so once for a half that was made,
/// and once for a half that was found, since the program that made it may have ended before a sync.
///
/// After a failed sync a system may count the pages that it lost as clean. The next sync would then
/// succeed without them, so no call succeeds after a failed sync: drop the disk. A file that is
/// there is synced (`fsync`) when it is opened, before anything is read from it. So an earlier
/// failure that the system told nobody of yet is a fault now, and so is each call after it. But a
/// failure that a sync already reported isn't reported again, and as long as the system keeps the
/// lost pages, it shows them to the next program that opens the file. A system can be asked to drop
/// them (`posix_fadvise`), but `std` has no call for this. So after a failed sync restart the
/// machine before the folder is opened again.
///
/// A file that is opened for reading alone is synced too. A file system that is mounted for reading
/// alone mostly accepts a sync; one without syncs gives faults.
///
/// # What is proved, and what is argued
///
/// It is proved that no call panics, that each ends if the system's calls do, and that faults are
/// counted. No clause can say what a file holds, since that also depends on other programs, the
/// system and the device. So this disk is never honest, and the clauses on bytes, syncs and crashes
/// say nothing about it. But code that is generic in its disk can't tell this disk from an honest
/// one. So what is proved of such code over every honest disk also holds for a run over files,
/// under these premises, which nothing proves:
///
/// - No other program changes, moves or removes the folder or its files while the disk lives.
/// - A read gives what was written last, or fails.
/// - A crash leaves a half no shorter than it was at its last sync, and no longer than it has been
///   since. It keeps each byte that was not written since, including those beside written ones.
/// - Whatever a successful sync wrote is there after a crash. So the device doesn't report bytes as
///   written while they are only in a cache that loses power.
///
/// The rest is the code, which is to be read: `read_at`, `write_at` and `sync` first look for the
/// folder, the file and its length; then each makes the system call that has its meaning.
#[derive(Drop)]
pub struct FileDisk {
    folder: Folder,
    faults: Faults,
}

impl FileDisk {
    ghost use Rattle.std.specs.Prelude.{◌≡◌, ◌↔◌, IfOk, None};
    ghost use Rattle.charmlet_disk.specs.FileDisk.{cause_of, faults_of};

    /// A disk over the folder at this path, with no failure counted. It asks nothing of the system:
    /// each later call looks for the folder, from the first on. A path that isn't absolute begins
    /// at the current directory. It fails only if there is no memory for the path.
    pub fn new(rt: HostRuntime, folder: &str) -> Result<FileDisk, AllocError>
        ensures { IfOk result (λ disk. faults_of disk ≡ 0) }
    {
        Ok(FileDisk {
            folder: Folder::new(rt, folder)?,
            faults: Faults::none(),
        })
    }

    /// Why the first fault occurred, as the system says it, or in words that say what to do about
    /// the folder; `None` while there was no fault. Later faults don't change it.
    pub fn cause(&self) -> Option<io::Error>
        ensures cause { result ≡ cause_of self.now }
        ensures told { (result ≡ None) ↔ (faults_of self.now ≡ 0) }
    {
        self.faults.first()
    }
}

impl Disk for FileDisk {
    ghost use Rattle.std.specs.Prelude.{[]};
    ghost use Rattle.charmlet_disk.specs.File.{clean};
    ghost use Rattle.charmlet_disk.specs.FileDisk.{faults_of};

    ghost honest = { λ _. ⊥ };

    ghost file = { λ _ _. clean [] };

    ghost moment = { λ _. 0 };

    ghost since = { λ _ _ _. ⊥ };

    ghost faults = { faults_of };

    ghost reads_are_left = { λ disk honest half. absurd honest };

    ghost counts_now = { λ disk t c honest le left. absurd honest };

    ghost only_now = { λ disk c honest left. absurd honest };

    fn len(&mut self, half: Half) -> Result<u64, DeviceFault> {
        self.faults.counted(self.folder.len(half))
    }

    fn read_at(&mut self, half: Half, offset: u64, into: &mut [u8]) -> Result<(), DeviceFault> {
        self.faults.counted(self.folder.read_at(half, offset, into))
    }

    fn write_at(&mut self, half: Half, offset: u64, bytes: &[u8]) -> Result<(), DeviceFault> {
        self.faults
            .counted(self.folder.write_at(half, offset, bytes))
    }

    fn sync(&mut self, half: Half) -> Result<(), DeviceFault> {
        self.faults.counted(self.folder.sync(half))
    }

    fn failures(&self) -> u64 {
        self.faults.count()
    }
}
