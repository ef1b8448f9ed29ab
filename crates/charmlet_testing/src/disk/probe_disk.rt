//! A disk in memory that fails and forgets as told.

ghost use Rattle.std.specs.Prelude.{◌≡◌, is_ok};
ghost use Rattle.charmlet_disk.specs.Disk.{faults_after};

use charmlet_disk::{CrashChoice, DeviceFault, Disk, MemDisk};
use charmlet_model::Half;
use std::alloc::{AllocError, Global};
use std::sync::Arc;
use std::sync::atomic::{AtomicBool, AtomicU64, Ordering};

/// Switches by which a disk misbehaves, and counts of its calls. A holder may set them while a
/// store has the disk.
#[derive(Drop)]
pub struct Switches {
    /// How many writes and syncs pass before each fails.
    pub fuse: AtomicU64,
    /// How many calls pass before one fails.
    pub once: AtomicU64,
    /// Whether syncs do nothing.
    pub forgets: AtomicBool,
    lengths: AtomicU64,
    reads: AtomicU64,
    writes: AtomicU64,
    syncs: AtomicU64,
    failed: AtomicU64,
}

impl Switches {
    fn new() -> Switches {
        Switches {
            fuse: AtomicU64::new(u64::MAX),
            once: AtomicU64::new(u64::MAX),
            forgets: AtomicBool::new(false),
            lengths: AtomicU64::new(0),
            reads: AtomicU64::new(0),
            writes: AtomicU64::new(0),
            syncs: AtomicU64::new(0),
            failed: AtomicU64::new(0),
        }
    }

    /// Makes the disk fail no more.
    pub fn mend(&self) {
        self.fuse.store(u64::MAX, Ordering::SeqCst);
        self.once.store(u64::MAX, Ordering::SeqCst);
    }

    /// How many lengths, reads, writes and syncs the disk in memory was asked for, and how many
    /// calls failed before they reached it.
    pub fn counts(&self) -> [u64; 5] {
        [
            self.lengths.load(Ordering::SeqCst),
            self.reads.load(Ordering::SeqCst),
            self.writes.load(Ordering::SeqCst),
            self.syncs.load(Ordering::SeqCst),
            self.failed.load(Ordering::SeqCst),
        ]
    }

    /// Counts a call, and answers whether it passes.
    fn passes(&self, count: &AtomicU64, changes: bool) -> bool {
        let is_whole = spend(&self.once, true) && !(changes && is_blown(&self.fuse));
        if is_whole {
            count.fetch_add(1, Ordering::SeqCst);
        } else {
            self.failed.fetch_add(1, Ordering::SeqCst);
        }
        is_whole
    }
}

/// Counts down to the call that fails, if one is to fail, and answers whether this one passes.
fn spend(left: &AtomicU64, ends: bool) -> bool {
    match left.load(Ordering::SeqCst) {
        u64::MAX => true,
        0 => {
            if ends {
                left.store(u64::MAX, Ordering::SeqCst);
            }
            false
        }
        calls => {
            left.store(calls - 1, Ordering::SeqCst);
            true
        }
    }
}

/// Counts down until all calls fail, if they are to fail, and answers whether this one does.
fn is_blown(left: &AtomicU64) -> bool {
    !spend(left, false)
}

/// A disk in memory that fails and forgets as its switches say. So it isn't honest.
pub struct ProbeDisk {
    disk: MemDisk,
    switches: Arc<Switches>,
    faults: u64,
}

// Written by hand, so that dropping the disk in memory is proved here, and not in each crate that
// drops a disk of probes.
impl Drop for ProbeDisk {
    fn drop(self) {
        let ProbeDisk {
            disk,
            switches,
            faults: _,
        } = self;
        drop(disk);
        drop(switches);
    }
}

impl ProbeDisk {
    /// A new disk that doesn't misbehave.
    pub fn new(alloc: Global) -> Result<ProbeDisk, AllocError> {
        let switches = Arc::new(alloc, Switches::new())?;
        Ok(ProbeDisk {
            disk: MemDisk::new(alloc),
            switches,
            faults: 0,
        })
    }

    /// The switches of the disk.
    pub fn switches(&self) -> Result<Arc<Switches>, AllocError> {
        self.switches.clone()
    }

    /// The disk that a crash leaves.
    pub fn crash(self, choice: CrashChoice) -> ProbeDisk {
        let ProbeDisk {
            disk,
            switches,
            faults,
        } = self;
        switches.mend();
        ProbeDisk {
            disk: disk.crash(choice),
            switches,
            faults,
        }
    }

    /// The disk in memory, whose calls aren't counted and don't fail.
    pub fn inner(&mut self) -> &mut MemDisk {
        &mut self.disk
    }

    /// All bytes of a half, which is no call of the disk.
    pub fn bytes(&mut self, alloc: Global, half: Half) -> Result<Vec<u8>, DeviceFault> {
        bytes_of(alloc, &mut self.disk, half)
    }

    /// Writes these bytes to a half, if they begin inside or at its end, and makes them durable,
    /// which is no call of the disk.
    pub fn put(&mut self, half: Half, offset: u64, bytes: &[u8]) -> Result<(), DeviceFault> {
        write(&mut self.disk, half, offset, bytes)?;
        self.disk.sync(half)
    }

    /// Keeps the first `length` bytes of a half, which is no call of the disk.
    pub fn cut(&mut self, alloc: Global, half: Half, length: u64) -> Result<(), DeviceFault> {
        let kept = bytes_of(alloc, &mut self.disk, half)?;
        let other = bytes_of(alloc, &mut self.disk, half.other())?;
        let length = kept.len().min(length as usize);
        self.disk = filled(alloc, half, &kept[..length], &other)?;
        Ok(())
    }

    fn counted<T: Drop>(&mut self, done: Option<T>) -> Result<T, DeviceFault>
        ensures { self.new.faults ≡ faults_after (is_ok result) self.old.faults }
    {
        match done {
            Some(value) => Ok(value),
            None => {
                self.faults = self.faults.saturating_add(1);
                Err(DeviceFault)
            }
        }
    }
}

/// All bytes of a half of a disk in memory.
fn bytes_of(alloc: Global, disk: &mut MemDisk, half: Half) -> Result<Vec<u8>, DeviceFault> {
    let length = disk.len(half)?;
    let mut bytes = Vec::new(alloc);
    if bytes.resize(length as usize, 0).is_err() {
        return Err(DeviceFault);
    }
    disk.read_at(half, 0, &mut bytes)?;
    Ok(bytes)
}

/// Reads bytes, if they are inside.
fn read(disk: &mut MemDisk, half: Half, offset: u64, into: &mut [u8]) -> Result<(), DeviceFault> {
    let length = disk.len(half)?;
    if length < offset || length - offset < into.len() as u64 {
        return Err(DeviceFault);
    }
    disk.read_at(half, offset, into)
}

/// Writes bytes, if they begin inside or at the end.
fn write(disk: &mut MemDisk, half: Half, offset: u64, bytes: &[u8]) -> Result<(), DeviceFault> {
    if disk.len(half)? < offset {
        return Err(DeviceFault);
    }
    disk.write_at(half, offset, bytes)
}

/// A new disk in memory with these bytes in a half, and those in the other one.
fn filled(alloc: Global, half: Half, bytes: &[u8], others: &[u8]) -> Result<MemDisk, DeviceFault> {
    let mut disk = MemDisk::new(alloc);
    fill(&mut disk, half, bytes, others)?;
    Ok(disk)
}

/// Writes these bytes to a half of a new disk in memory, and those to the other one, and makes them
/// durable.
fn fill(disk: &mut MemDisk, half: Half, bytes: &[u8], others: &[u8]) -> Result<(), DeviceFault> {
    write(disk, half, 0, bytes)?;
    write(disk, half.other(), 0, others)?;
    disk.sync(half)?;
    disk.sync(half.other())
}

impl Disk for ProbeDisk {
    ghost use Rattle.std.specs.Prelude.{[]};
    ghost use Rattle.charmlet_disk.specs.File.{clean};

    ghost honest = { λ _. ⊥ };

    ghost file = { λ _ _. clean [] };

    ghost moment = { λ _. 0 };

    ghost since = { λ _ _ _. ⊥ };

    ghost faults = { λ disk. disk.faults };

    ghost reads_are_left = { λ disk honest half. absurd honest };

    ghost counts_now = { λ disk t c honest le left. absurd honest };

    ghost only_now = { λ disk c honest left. absurd honest };

    fn len(&mut self, half: Half) -> Result<u64, DeviceFault> {
        let passes = self.switches.passes(&self.switches.lengths, false);
        let done = if passes {
            self.disk.len(half).ok()
        } else {
            None
        };
        self.counted(done)
    }

    fn read_at(&mut self, half: Half, offset: u64, into: &mut [u8]) -> Result<(), DeviceFault> {
        let passes = self.switches.passes(&self.switches.reads, false);
        let done = if passes {
            read(&mut self.disk, half, offset, into).ok()
        } else {
            None
        };
        self.counted(done)
    }

    fn write_at(&mut self, half: Half, offset: u64, bytes: &[u8]) -> Result<(), DeviceFault> {
        let passes = self.switches.passes(&self.switches.writes, true);
        let done = if passes {
            write(&mut self.disk, half, offset, bytes).ok()
        } else {
            None
        };
        self.counted(done)
    }

    fn sync(&mut self, half: Half) -> Result<(), DeviceFault> {
        let passes = self.switches.passes(&self.switches.syncs, true);
        let done = if !passes {
            None
        } else if self.switches.forgets.load(Ordering::SeqCst) {
            Some(())
        } else {
            self.disk.sync(half).ok()
        };
        self.counted(done)
    }

    fn failures(&self) -> u64 {
        self.faults
    }
}
