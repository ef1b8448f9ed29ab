//! The trait of disks: two files, as their callers see them.
ghost use Rattle.std.specs.Prelude.{◌≡◌, ◌≤◌, ◌+◌, List, ℕ, length, take, drop, is_ok, IfOk, OnOk, OnErr};
ghost use Rattle.charmlet_model.specs.declared.half.Half.{Half};
ghost use Rattle.charmlet_model.specs.Half.{other};
ghost use Rattle.charmlet_disk.specs.File.{File, CrashBytes, MayBeLeft, MayLeave, wrote, clean};
ghost use Rattle.charmlet_disk.specs.Disk.{Elapses, SameFiles, faults_after};
ghost use Rattle.charmlet_model.specs.declared.refusal.Refusal.TheVariants.{Device};

use charmlet_model::{Half, Refusal};

/// A failure of the device, of which no more is known: the disk's `failures` counts it.
#[derive(Clone, Copy, Debug, PartialEq, Eq)]
pub struct DeviceFault;

impl From<DeviceFault> for Refusal {
    ghost from_gives = { λ _ refusal. refusal ≡ Device };

    fn from(_fault: DeviceFault) -> Refusal {
        Refusal::Device
    }
}

/// Two files under one clock. Nobody else writes to either.
///
/// The clauses on bytes and crashes speak of an honest disk: a read there gives what was written. A
/// crash leaves the bytes of each file at the last sync, except that the ranges that were written
/// since may hold any bytes. The length is any from the one at that sync to the greatest since. The
/// clauses on `failures` hold for every disk.
///
/// Any call may answer [`DeviceFault`]: no clause says when, and `failures` counts it. Nothing is
/// said about a read past the end, or about a write that begins past it, on a disk that isn't
/// honest.
pub trait Disk: Send + Drop {
    /// The disk keeps what the clauses below say of an honest disk.
    ghost honest: { Self → Type 0 };

    /// Each half: what a read gives, which bytes are durable, and which ranges were written since
    /// the last sync.
    ghost file: { Self → Half → File };

    /// The moment, as a number that does not fall.
    ghost moment: { Self → ℕ };

    /// What a crash at some moment from that one on might have left, within a call or between two.
    ghost since: { Self → ℕ → CrashBytes → Type 0 };

    /// How often the device has failed, up to the largest count.
    ghost faults: { Self → ℕ };

    /// The length of a half in bytes.
    fn len(&mut self, half: Half) -> Result<u64, DeviceFault>
        ensures length { honest self.old → IfOk result (λ n. n ≡ length (file self.old half).now) }
        ensures same { honest self.old → SameFiles (file self.old) (file self.new) }
        ensures time { honest self.old → Elapses (moment self.old) (moment self.new)
            (since self.old) (since self.new) (MayLeave (file self.new)) }
        ensures honest { (honest self.old → honest self.new) × (honest self.new → honest self.old) }
        ensures counted { faults self.new ≡ faults_after (is_ok result) (faults self.old) };

    /// Fills `into` with the bytes of a half from an offset on. After a fault `into` holds
    /// anything.
    fn read_at(&mut self, half: Half, offset: u64, into: &mut [u8]) -> Result<(), DeviceFault>
        requires { honest self.old → offset + length into.old ≤ length (file self.old half).now }
        ensures bytes { honest self.old →
            OnOk result (into.new ≡ take (length into.old) (drop offset (file self.old half).now)) }
        ensures same { honest self.old → SameFiles (file self.old) (file self.new) }
        ensures time { honest self.old → Elapses (moment self.old) (moment self.new)
            (since self.old) (since self.new) (MayLeave (file self.new)) }
        ensures honest { (honest self.old → honest self.new) × (honest self.new → honest self.old) }
        ensures counted { faults self.new ≡ faults_after (is_ok result) (faults self.old) };

    /// Writes bytes to a half from an offset on, over the present bytes and past the end. Until a
    /// sync of the half succeeds, a crash may leave any bytes in the range. A write that fails may
    /// have written any part of it, and counts as a written range too.
    fn write_at(&mut self, half: Half, offset: u64, bytes: &[u8]) -> Result<(), DeviceFault>
        requires { honest self.old → offset ≤ length (file self.old half).now }
        ensures written { honest self.old →
            OnOk result (file self.new half ≡ wrote offset bytes.now (file self.old half)) }
        ensures torn { honest self.old → (left : List ℕ) → MayBeLeft (file self.new half) left
            → MayBeLeft (wrote offset bytes.now (file self.old half)) left }
        ensures other { honest self.old → file self.new (other half) ≡ file self.old (other half) }
        ensures time { honest self.old → Elapses (moment self.old) (moment self.new)
            (since self.old) (since self.new) (MayLeave (file self.new)) }
        ensures honest { (honest self.old → honest self.new) × (honest self.new → honest self.old) }
        ensures counted { faults self.new ≡ faults_after (is_ok result) (faults self.old) };

    /// Makes a half durable: from then on a crash leaves exactly what a read gives, including its
    /// length. A sync that fails makes nothing durable.
    fn sync(&mut self, half: Half) -> Result<(), DeviceFault>
        ensures durable { honest self.old →
            OnOk result (file self.new half ≡ clean (file self.old half).now) }
        ensures failed { honest self.old → OnErr result (file self.new half ≡ file self.old half) }
        ensures other { honest self.old → file self.new (other half) ≡ file self.old (other half) }
        ensures time { honest self.old → Elapses (moment self.old) (moment self.new)
            (since self.old) (since self.new) (MayLeave (file self.new)) }
        ensures honest { (honest self.old → honest self.new) × (honest self.new → honest self.old) }
        ensures counted { faults self.new ≡ faults_after (is_ok result) (faults self.old) };

    /// How often a call has failed. Each fault adds one, up to 2^64-1; the count stays there, and
    /// counts as grown.
    fn failures(&self) -> u64
        ensures { result ≡ faults self.now };

    /// What a read gives is one of the outcomes.
    ghost reads_are_left: { (disk : Self) → honest disk → (half : Half) →
        MayBeLeft (file disk half) (file disk half).now };

    /// This moment is one of those since an earlier one.
    ghost counts_now: { (disk : Self) (t : ℕ) (c : CrashBytes) → honest disk → t ≤ moment disk
        → MayLeave (file disk) c → since disk t c };

    /// Since this moment there is no other.
    ghost only_now: { (disk : Self) (c : CrashBytes) → honest disk → since disk (moment disk) c →
        MayLeave (file disk) c };
}
