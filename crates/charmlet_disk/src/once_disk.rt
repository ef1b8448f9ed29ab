//! A disk that fails one call.
ghost use Rattle.std.specs.Prelude.{◌≡◌, ◌+◌, ◌-◌, ◌^◌, ◌↔◌, min, is_ok, if◌then◌else◌, IsErr, Some};
ghost use Rattle.charmlet_disk.specs.Once.{one_less};

use crate::{DeviceFault, Disk};
use charmlet_model::Half;

/// A disk that passes a given number of calls on to another one, fails the next one without
/// touching the other disk, and passes all later ones on. Lengths and reads count as calls, too.
///
/// It is honest if and only if the other disk is. Its `failures` are the other disk's plus its own
/// one.
#[derive(Drop)]
pub struct OnceDisk<D: Disk> {
    disk: D,
    left: Option<u64>,
    failed: u64,
}

impl<D: Disk> OnceDisk<D> {
    ghost use Rattle.std.specs.Prelude.{Some};
    ghost use Rattle.charmlet_disk.specs.Once.{inner_disk, calls_before, failed_calls};

    /// Puts a disk in front of `disk` that passes `calls` calls and fails the next one.
    pub fn new(disk: D, calls: u64) -> OnceDisk<D>
        ensures disk { inner_disk result ≡ disk }
        ensures calls { calls_before result ≡ Some calls }
        ensures failed { failed_calls result ≡ 0 }
    {
        OnceDisk {
            disk,
            left: Some(calls),
            failed: 0,
        }
    }

    /// The other disk, as the calls that passed have left it.
    pub fn inner(self) -> D
        ensures { result ≡ inner_disk self }
    {
        let OnceDisk {
            disk,
            left: _,
            failed: _,
        } = self;
        disk
    }
}

// Uses up one call before the one that fails, or fails.
fn spend(left: &mut Option<u64>, failed: &mut u64) -> Result<(), DeviceFault>
    ensures fails { IsErr result ↔ (left.old ≡ Some 0) }
    ensures spent { left.new ≡ one_less left.old }
    ensures counted { failed.new ≡ (if is_ok result then failed.old
        else min (failed.old + 1) (2 ^ 64 - 1)) }
{
    match *left {
        None => Ok(()),
        Some(0) => {
            *left = None;
            *failed = failed.saturating_add(1);
            Err(DeviceFault)
        }
        Some(calls) => {
            *left = Some(calls - 1);
            Ok(())
        }
    }
}

impl<D: Disk> Disk for OnceDisk<D> {
    ghost use Rattle.std.specs.Prelude.{◌≡◌, ◌≤◌, ◌+◌, List, ℕ, length, take, drop, is_ok, IfOk, OnOk, OnErr};
    ghost use Rattle.charmlet_model.specs.Half.{other};
    ghost use Rattle.charmlet_disk.specs.File.{MayBeLeft, MayLeave, wrote, clean};
    ghost use Rattle.charmlet_disk.specs.Disk.{Elapses, SameFiles, faults_after};
    ghost use Rattle.charmlet_disk.specs.Fuse.{faults_of_both};
    ghost use Rattle.charmlet_disk.specs.Once.{inner_disk, failed_calls, Spends};

    ghost honest = { λ f. D.Disk.honest f.disk };

    ghost file = { λ f. D.Disk.file f.disk };

    ghost moment = { λ f. D.Disk.moment f.disk };

    ghost since = { λ f. D.Disk.since f.disk };

    ghost faults = { λ f. faults_of_both (D.Disk.faults f.disk) f.failed };

    ghost reads_are_left = { λ f. D.Disk.reads_are_left f.disk };

    ghost counts_now = { λ f. D.Disk.counts_now f.disk };

    ghost only_now = { λ f. D.Disk.only_now f.disk };

    fn len(&mut self, half: Half) -> Result<u64, DeviceFault>
        ensures spends { Spends D.faults self.old self.new (is_ok result) }
        ensures length { D.honest (inner_disk self.old) →
            IfOk result (λ n. n ≡ length (D.file (inner_disk self.old) half).now) }
        ensures same { D.honest (inner_disk self.old) →
            SameFiles (D.file (inner_disk self.old)) (D.file (inner_disk self.new)) }
        ensures time { D.honest (inner_disk self.old) →
            Elapses (D.moment (inner_disk self.old)) (D.moment (inner_disk self.new))
            (D.since (inner_disk self.old)) (D.since (inner_disk self.new))
            (MayLeave (D.file (inner_disk self.new))) }
        ensures honest { (D.honest (inner_disk self.old) → D.honest (inner_disk self.new))
            × (D.honest (inner_disk self.new) → D.honest (inner_disk self.old)) }
        ensures counted { faults_of_both (D.faults (inner_disk self.new)) (failed_calls self.new)
            ≡ faults_after (is_ok result) (faults_of_both (D.faults (inner_disk self.old))
            (failed_calls self.old)) }
    {
        spend(&mut self.left, &mut self.failed)?;
        self.disk.len(half)
    }

    fn read_at(&mut self, half: Half, offset: u64, into: &mut [u8]) -> Result<(), DeviceFault>
        requires { D.honest (inner_disk self.old) →
            offset + length into.old ≤ length (D.file (inner_disk self.old) half).now }
        ensures spends { Spends D.faults self.old self.new (is_ok result) }
        ensures bytes { D.honest (inner_disk self.old) → OnOk result (into.new
            ≡ take (length into.old) (drop offset (D.file (inner_disk self.old) half).now)) }
        ensures same { D.honest (inner_disk self.old) →
            SameFiles (D.file (inner_disk self.old)) (D.file (inner_disk self.new)) }
        ensures time { D.honest (inner_disk self.old) →
            Elapses (D.moment (inner_disk self.old)) (D.moment (inner_disk self.new))
            (D.since (inner_disk self.old)) (D.since (inner_disk self.new))
            (MayLeave (D.file (inner_disk self.new))) }
        ensures honest { (D.honest (inner_disk self.old) → D.honest (inner_disk self.new))
            × (D.honest (inner_disk self.new) → D.honest (inner_disk self.old)) }
        ensures counted { faults_of_both (D.faults (inner_disk self.new)) (failed_calls self.new)
            ≡ faults_after (is_ok result) (faults_of_both (D.faults (inner_disk self.old))
            (failed_calls self.old)) }
    {
        spend(&mut self.left, &mut self.failed)?;
        self.disk.read_at(half, offset, into)
    }

    fn write_at(&mut self, half: Half, offset: u64, bytes: &[u8]) -> Result<(), DeviceFault>
        requires { D.honest (inner_disk self.old) →
            offset ≤ length (D.file (inner_disk self.old) half).now }
        ensures spends { Spends D.faults self.old self.new (is_ok result) }
        ensures written { D.honest (inner_disk self.old) →
            OnOk result (D.file (inner_disk self.new) half
            ≡ wrote offset bytes.now (D.file (inner_disk self.old) half)) }
        ensures torn { D.honest (inner_disk self.old) → (left : List ℕ) →
            MayBeLeft (D.file (inner_disk self.new) half) left
            → MayBeLeft (wrote offset bytes.now (D.file (inner_disk self.old) half)) left }
        ensures other { D.honest (inner_disk self.old) →
            D.file (inner_disk self.new) (other half) ≡ D.file (inner_disk self.old) (other half) }
        ensures time { D.honest (inner_disk self.old) →
            Elapses (D.moment (inner_disk self.old)) (D.moment (inner_disk self.new))
            (D.since (inner_disk self.old)) (D.since (inner_disk self.new))
            (MayLeave (D.file (inner_disk self.new))) }
        ensures honest { (D.honest (inner_disk self.old) → D.honest (inner_disk self.new))
            × (D.honest (inner_disk self.new) → D.honest (inner_disk self.old)) }
        ensures counted { faults_of_both (D.faults (inner_disk self.new)) (failed_calls self.new)
            ≡ faults_after (is_ok result) (faults_of_both (D.faults (inner_disk self.old))
            (failed_calls self.old)) }
    {
        spend(&mut self.left, &mut self.failed)?;
        self.disk.write_at(half, offset, bytes)
    }

    fn sync(&mut self, half: Half) -> Result<(), DeviceFault>
        ensures spends { Spends D.faults self.old self.new (is_ok result) }
        ensures durable { D.honest (inner_disk self.old) →
            OnOk result (D.file (inner_disk self.new) half
            ≡ clean (D.file (inner_disk self.old) half).now) }
        ensures failed { D.honest (inner_disk self.old) →
            OnErr result (D.file (inner_disk self.new) half ≡ D.file (inner_disk self.old) half) }
        ensures other { D.honest (inner_disk self.old) →
            D.file (inner_disk self.new) (other half) ≡ D.file (inner_disk self.old) (other half) }
        ensures time { D.honest (inner_disk self.old) →
            Elapses (D.moment (inner_disk self.old)) (D.moment (inner_disk self.new))
            (D.since (inner_disk self.old)) (D.since (inner_disk self.new))
            (MayLeave (D.file (inner_disk self.new))) }
        ensures honest { (D.honest (inner_disk self.old) → D.honest (inner_disk self.new))
            × (D.honest (inner_disk self.new) → D.honest (inner_disk self.old)) }
        ensures counted { faults_of_both (D.faults (inner_disk self.new)) (failed_calls self.new)
            ≡ faults_after (is_ok result) (faults_of_both (D.faults (inner_disk self.old))
            (failed_calls self.old)) }
    {
        spend(&mut self.left, &mut self.failed)?;
        self.disk.sync(half)
    }

    fn failures(&self) -> u64 {
        self.disk.failures().saturating_add(self.failed)
    }
}
