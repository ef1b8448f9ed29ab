//! The folder of both halves, and its lock.
ghost use Rattle.std.specs.Prelude.{◌≡◌, IsErr, IsTrue};

use super::half_file::HalfFile;
use charmlet_model::Half;
use std::alloc::AllocError;
use std::fs::{self, File, Metadata, TryLockError};
use std::io::{self, ErrorKind};
use std::os::unix::fs::MetadataExt;

/// A folder with the files `half0` and `half1`. Each call looks for the folder first, and locks it
/// if no earlier call could; then it opens its half, if the file is there. After a failed sync each
/// call is an error, also after the sync of a half that was found.
#[derive(Drop)]
pub struct Folder {
    rt: HostRuntime,
    path: String,
    zero: HalfFile,
    one: HalfFile,
    /// The lock, from the first call on that got it. It is dropped after the files.
    locked: Option<Locked>,
    /// A sync failed, so that nobody knows what the device has.
    is_lost: bool,
}

/// A folder that other processes can't lock while this handle is open.
#[derive(Drop)]
struct Locked {
    handle: File,
    device: u64,
    inode: u64,
}

impl Folder {
    /// The folder of this name, which no call looks for yet.
    pub fn new(rt: HostRuntime, path: &str) -> Result<Folder, AllocError> {
        let alloc = rt.alloc();
        Ok(Folder {
            rt,
            path: format!(in alloc; "{path}")?,
            zero: HalfFile::new(format!(in alloc; "{path}/half0")?),
            one: HalfFile::new(format!(in alloc; "{path}/half1")?),
            locked: None,
            is_lost: false,
        })
    }

    /// The length of a half.
    pub fn len(&mut self, half: Half) -> io::Result<u64>
        ensures lost { IsTrue self.old.is_lost → IsErr result }
        ensures kept { IsTrue self.old.is_lost → IsTrue self.new.is_lost }
    {
        self.enter(half)?;
        match half {
            Half::Zero => self.zero.len(),
            Half::One => self.one.len(),
        }
    }

    /// Reads inside a half.
    pub fn read_at(&mut self, half: Half, offset: u64, into: &mut [u8]) -> io::Result<()>
        ensures lost { IsTrue self.old.is_lost → IsErr result }
        ensures kept { IsTrue self.old.is_lost → IsTrue self.new.is_lost }
    {
        self.enter(half)?;
        match half {
            Half::Zero => self.zero.read_at(offset, into),
            Half::One => self.one.read_at(offset, into),
        }
    }

    /// Writes to a half, from an offset on that is at most its end.
    pub fn write_at(&mut self, half: Half, offset: u64, bytes: &[u8]) -> io::Result<()>
        ensures lost { IsTrue self.old.is_lost → IsErr result }
        ensures kept { IsTrue self.old.is_lost → IsTrue self.new.is_lost }
    {
        self.enter(half)?;
        match half {
            Half::Zero => self.zero.write_at(&self.rt, offset, bytes),
            Half::One => self.one.write_at(&self.rt, offset, bytes),
        }
    }

    /// Makes a half durable.
    pub fn sync(&mut self, half: Half) -> io::Result<()>
        ensures lost { IsTrue self.old.is_lost → IsErr result }
        ensures kept { IsTrue self.old.is_lost → IsTrue self.new.is_lost }
    {
        self.enter(half)?;
        self.write_out(half)
    }

    // Syncs a half that is open or missing. After an error no call succeeds.
    fn write_out(&mut self, half: Half) -> io::Result<()>
        ensures failed { IsErr result → IsTrue self.new.is_lost }
    {
        let synced = match (half, &self.locked) {
            (Half::Zero, Some(locked)) => self.zero.sync(&locked.handle),
            (Half::One, Some(locked)) => self.one.sync(&locked.handle),
            (_, None) => Err(ErrorKind::NotFound.into()),
        };
        self.is_lost = synced.is_err();
        synced
    }

    // Holds the folder, and opens the half if its file is there. It is an error after a failed
    // sync.
    fn enter(&mut self, half: Half) -> io::Result<()>
        ensures lost { IsTrue self.old.is_lost → IsErr result }
        ensures kept { IsTrue self.old.is_lost → IsTrue self.new.is_lost }
    {
        if self.is_lost {
            return Err(ErrorKind::Other.into());
        }
        self.hold()?;
        match half {
            Half::Zero => self.zero.find(&self.rt, &mut self.is_lost),
            Half::One => self.one.find(&self.rt, &mut self.is_lost),
        }
    }

    // Makes sure that the path names the folder that is locked, or locks the one that it names.
    fn hold(&mut self) -> io::Result<()>
        ensures { self.new.is_lost ≡ self.old.is_lost }
    {
        let named = fs::metadata(&self.rt, self.path.as_str()).map_err(said_of_folder)?;
        if let Some(locked) = &self.locked {
            return locked.check(&named);
        }
        let locked = Locked::new(&self.rt, self.path.as_str(), &named)?;
        let is_named = locked.check(&named);
        self.locked = Some(locked);
        is_named
    }
}

impl Locked {
    // Locks a folder that stands at this path.
    fn new(rt: &HostRuntime, path: &str, named: &Metadata) -> io::Result<Locked> {
        // A pipe is not opened, since that waits.
        if !named.is_dir() {
            return Err(said_of_folder(ErrorKind::NotADirectory.into()));
        }
        let handle = File::open(rt, path)?;
        match handle.try_lock() {
            Ok(()) => {}
            Err(TryLockError::WouldBlock) => {
                return Err(io::Error::new(
                    ErrorKind::WouldBlock,
                    "another program uses the folder",
                ));
            }
            Err(TryLockError::Error(error)) => return Err(error),
        }
        let held = handle.metadata()?;
        Ok(Locked {
            handle,
            device: held.dev(),
            inode: held.ino(),
        })
    }

    // The path still names the folder that is locked.
    fn check(&self, named: &Metadata) -> io::Result<()> {
        if named.dev() != self.device || named.ino() != self.inode {
            return Err(io::Error::new(
                ErrorKind::NotFound,
                "the folder was moved, and another one has its name",
            ));
        }
        Ok(())
    }
}

// The message for a folder that isn't found, or isn't a folder.
fn said_of_folder(error: io::Error) -> io::Error {
    match error.kind() {
        ErrorKind::NotFound => io::Error::new(ErrorKind::NotFound, "there is no such folder"),
        ErrorKind::NotADirectory => io::Error::new(ErrorKind::NotADirectory, "it isn't a folder"),
        _ => error,
    }
}
