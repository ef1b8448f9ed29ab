//! One half as a file, which may be missing.
ghost use Rattle.std.specs.Prelude.{◌+◌, ◌≤◌, ◌↔◌, IsErr, IsTrue};

use std::fs::{self, File, OpenOptions};
use std::io::{self, ErrorKind};
use std::os::fd::AsRawFd;
use std::os::unix::fs::{FileExt, MetadataExt};

/// A file of a folder. It is opened if it is there; if it is missing, the first write makes it.
#[derive(Drop)]
pub struct HalfFile {
    path: String,
    file: Option<File>,
    /// The folder was synced since the file was opened or made, so that its name is durable too.
    is_named: bool,
}

impl HalfFile {
    /// A file of this name, which no call looks for yet.
    pub fn new(path: String) -> HalfFile {
        HalfFile {
            path,
            file: None,
            is_named: false,
        }
    }

    /// Opens the file and syncs it, if it is there and not open yet. If the sync fails, the disk is
    /// lost.
    pub fn find(&mut self, rt: &HostRuntime, is_lost: &mut bool) -> io::Result<()>
        ensures kept { IsTrue is_lost.old → IsTrue is_lost.new }
    {
        if self.file.is_none() {
            self.file = open(rt, self.path.as_str(), is_lost)?;
        }
        Ok(())
    }

    /// The length in bytes, which is 0 if the file is missing.
    pub fn len(&self) -> io::Result<u64> {
        match &self.file {
            Some(file) => len_of(file),
            None => Ok(0),
        }
    }

    /// Reads the bytes from an offset on. It is an error if some of them are past the end.
    pub fn read_at(&self, offset: u64, into: &mut [u8]) -> io::Result<()> {
        let len = self.len()?;
        if !is_inside(offset, into.len(), len) {
            return Err(io::Error::new(ErrorKind::UnexpectedEof, "a read past the end of a half"));
        }
        match &self.file {
            Some(file) => file.read_exact_at(into, offset),
            None => Ok(()),
        }
    }

    /// Writes bytes from an offset on, and makes the file first if it is missing. It is an error if
    /// the offset is past the end.
    pub fn write_at(&mut self, rt: &HostRuntime, offset: u64, bytes: &[u8]) -> io::Result<()> {
        let len = self.len()?;
        if !is_inside(offset, 0, len) {
            return Err(io::Error::new(
                ErrorKind::InvalidInput,
                "a write that begins past the end of a half",
            ));
        }
        if let Some(file) = &self.file {
            return file.write_all_at(bytes, offset);
        }
        let made = above_streams(File::create_new(rt, self.path.as_str())?)?;
        let written = made.write_all_at(bytes, offset);
        self.file = Some(made);
        written
    }

    /// Makes the contents of an open file durable, with its length, and once its name in the folder
    /// too.
    pub fn sync(&mut self, folder: &File) -> io::Result<()> {
        let Some(file) = &self.file else {
            return Ok(());
        };
        len_of(file)?;
        file.sync_data()?;
        if !self.is_named {
            folder.sync_all()?;
            self.is_named = true;
        }
        Ok(())
    }
}

// Whether `count` bytes from an offset on are inside a file of length `len`.
fn is_inside(offset: u64, count: usize, len: u64) -> bool
    ensures { IsTrue result ↔ (offset + count ≤ len) }
{
    offset <= len && count as u64 <= len - offset
}

// Opens and syncs the file, if it is there. It must be a regular file, no link, and have no second
// name, since the lock of another folder would not protect it. A pipe is not opened, since opening
// one waits.
fn open(rt: &HostRuntime, path: &str, is_lost: &mut bool) -> io::Result<Option<File>>
    ensures kept { IsTrue is_lost.old → IsTrue is_lost.new }
{
    match fs::symlink_metadata(rt, path) {
        Ok(found) if found.is_file() && found.nlink() == 1 => {}
        Ok(_) => {
            return Err(io::Error::new(
                ErrorKind::Unsupported,
                "a half isn't a regular file, or has a second name",
            ));
        }
        Err(error) if error.kind() == ErrorKind::NotFound => return Ok(None),
        Err(error) => return Err(error),
    }
    let file = above_streams(open_for_all(rt, path)?)?;
    sync_found(&file, is_lost)?;
    Ok(Some(file))
}

// Syncs a file that was found. If an earlier write failed and nobody was told yet, the system
// reports the failure now, and not again; so then the disk is lost.
fn sync_found(file: &File, is_lost: &mut bool) -> io::Result<()>
    ensures failed { IsErr result → IsTrue is_lost.new }
    ensures kept { IsTrue is_lost.old → IsTrue is_lost.new }
{
    let synced = file.sync_all();
    if synced.is_err() {
        *is_lost = true;
    }
    synced
}

// Opens the file, for reading alone if it may not be written.
fn open_for_all(rt: &HostRuntime, path: &str) -> io::Result<File> {
    match OpenOptions::new().read(true).write(true).open(rt, path) {
        Err(error) if is_denied(error.kind()) => fs::open(rt, path),
        opened => opened,
    }
}

fn is_denied(kind: ErrorKind) -> bool {
    matches!(
        kind,
        ErrorKind::PermissionDenied | ErrorKind::ReadOnlyFilesystem
    )
}

// Moves the file above the standard streams, since output to a closed one must not land in the
// file.
fn above_streams(file: File) -> io::Result<File> {
    if file.as_raw_fd() <= 2 {
        return file.try_clone();
    }
    Ok(file)
}

// The length of a file, which must not have lost its name.
fn len_of(file: &File) -> io::Result<u64> {
    let found = file.metadata()?;
    if found.nlink() == 0 {
        return Err(io::Error::new(ErrorKind::NotFound, "a half was removed"));
    }
    Ok(found.len())
}
