//! A disk that fails from some call on.
ghost use Rattle.std.specs.Prelude.{◌≡◌, ◌+◌, ◌-◌, ◌^◌, ◌↔◌, min, is_ok, if◌then◌else◌, IsErr};

use crate::{DeviceFault, Disk};
use charmlet_model::Half;

/// A disk that passes a given number of calls of `write_at` and `sync` on to another one, and then
/// fails each further one without touching the other disk. Lengths and reads are always passed on.
///
/// It is honest if and only if the other disk is. Its `failures` are the other disk's plus its own.
#[derive(Drop)]
pub struct FuseDisk<D: Disk> {
    disk: D,
    left: u64,
    refused: u64,
}

impl<D: Disk> FuseDisk<D> {
    ghost use Rattle.charmlet_disk.specs.Fuse.{inside, calls_left, refusals};

    /// Puts a fuse in front of `disk`, which passes `calls` calls.
    pub fn new(disk: D, calls: u64) -> FuseDisk<D>
        ensures disk { inside result ≡ disk }
        ensures calls { calls_left result ≡ calls }
        ensures refusals { refusals result ≡ 0 }
    {
        FuseDisk {
            disk,
            left: calls,
            refused: 0,
        }
    }

    /// The other disk, as the calls that passed have left it.
    pub fn inner(self) -> D
        ensures { result ≡ inside self }
    {
        let FuseDisk {
            disk,
            left: _,
            refused: _,
        } = self;
        disk
    }
}

// Uses up one call, or counts one more refusal.
fn spend(left: &mut u64, refused: &mut u64) -> Result<(), DeviceFault>
    ensures blown { IsErr result ↔ (left.old ≡ 0) }
    ensures spent { left.new ≡ left.old - 1 }
    ensures counted { refused.new ≡ (if is_ok result then refused.old
        else min (refused.old + 1) (2 ^ 64 - 1)) }
{
    if *left == 0 {
        *refused = refused.saturating_add(1);
        return Err(DeviceFault);
    }
    *left -= 1;
    Ok(())
}

impl<D: Disk> Disk for FuseDisk<D> {
    ghost use Rattle.std.specs.Prelude.{◌≡◌, ◌≤◌, ◌+◌, List, ℕ, length, take, drop, is_ok, IfOk, OnOk, OnErr};
    ghost use Rattle.charmlet_model.specs.Half.{other};
    ghost use Rattle.charmlet_disk.specs.File.{MayBeLeft, MayLeave, wrote, clean};
    ghost use Rattle.charmlet_disk.specs.Disk.{Elapses, SameFiles, faults_after};
    ghost use Rattle.charmlet_disk.specs.Fuse.{inside, refusals, faults_of_both, Burns, PassesFree};

    ghost honest = { λ f. D.Disk.honest f.disk };

    ghost file = { λ f. D.Disk.file f.disk };

    ghost moment = { λ f. D.Disk.moment f.disk };

    ghost since = { λ f. D.Disk.since f.disk };

    ghost faults = { λ f. faults_of_both (D.Disk.faults f.disk) f.refused };

    ghost reads_are_left = { λ f. D.Disk.reads_are_left f.disk };

    ghost counts_now = { λ f. D.Disk.counts_now f.disk };

    ghost only_now = { λ f. D.Disk.only_now f.disk };

    fn len(&mut self, half: Half) -> Result<u64, DeviceFault>
        ensures passes { PassesFree self.old self.new }
        ensures length { D.honest (inside self.old) →
            IfOk result (λ n. n ≡ length (D.file (inside self.old) half).now) }
        ensures same { D.honest (inside self.old) →
            SameFiles (D.file (inside self.old)) (D.file (inside self.new)) }
        ensures time { D.honest (inside self.old) →
            Elapses (D.moment (inside self.old)) (D.moment (inside self.new))
            (D.since (inside self.old)) (D.since (inside self.new))
            (MayLeave (D.file (inside self.new))) }
        ensures honest { (D.honest (inside self.old) → D.honest (inside self.new))
            × (D.honest (inside self.new) → D.honest (inside self.old)) }
        ensures counted { faults_of_both (D.faults (inside self.new)) (refusals self.new)
            ≡ faults_after (is_ok result) (faults_of_both (D.faults (inside self.old))
            (refusals self.old)) }
    {
        self.disk.len(half)
    }

    fn read_at(&mut self, half: Half, offset: u64, into: &mut [u8]) -> Result<(), DeviceFault>
        requires { D.honest (inside self.old) →
            offset + length into.old ≤ length (D.file (inside self.old) half).now }
        ensures passes { PassesFree self.old self.new }
        ensures bytes { D.honest (inside self.old) → OnOk result
            (into.new ≡ take (length into.old) (drop offset (D.file (inside self.old) half).now)) }
        ensures same { D.honest (inside self.old) →
            SameFiles (D.file (inside self.old)) (D.file (inside self.new)) }
        ensures time { D.honest (inside self.old) →
            Elapses (D.moment (inside self.old)) (D.moment (inside self.new))
            (D.since (inside self.old)) (D.since (inside self.new))
            (MayLeave (D.file (inside self.new))) }
        ensures honest { (D.honest (inside self.old) → D.honest (inside self.new))
            × (D.honest (inside self.new) → D.honest (inside self.old)) }
        ensures counted { faults_of_both (D.faults (inside self.new)) (refusals self.new)
            ≡ faults_after (is_ok result) (faults_of_both (D.faults (inside self.old))
            (refusals self.old)) }
    {
        self.disk.read_at(half, offset, into)
    }

    fn write_at(&mut self, half: Half, offset: u64, bytes: &[u8]) -> Result<(), DeviceFault>
        requires { D.honest (inside self.old) →
            offset ≤ length (D.file (inside self.old) half).now }
        ensures burns { Burns D.faults self.old self.new (is_ok result) }
        ensures written { D.honest (inside self.old) →
            OnOk result (D.file (inside self.new) half
            ≡ wrote offset bytes.now (D.file (inside self.old) half)) }
        ensures torn { D.honest (inside self.old) → (left : List ℕ) →
            MayBeLeft (D.file (inside self.new) half) left
            → MayBeLeft (wrote offset bytes.now (D.file (inside self.old) half)) left }
        ensures other { D.honest (inside self.old) →
            D.file (inside self.new) (other half) ≡ D.file (inside self.old) (other half) }
        ensures time { D.honest (inside self.old) →
            Elapses (D.moment (inside self.old)) (D.moment (inside self.new))
            (D.since (inside self.old)) (D.since (inside self.new))
            (MayLeave (D.file (inside self.new))) }
        ensures honest { (D.honest (inside self.old) → D.honest (inside self.new))
            × (D.honest (inside self.new) → D.honest (inside self.old)) }
        ensures counted { faults_of_both (D.faults (inside self.new)) (refusals self.new)
            ≡ faults_after (is_ok result) (faults_of_both (D.faults (inside self.old))
            (refusals self.old)) }
    {
        spend(&mut self.left, &mut self.refused)?;
        self.disk.write_at(half, offset, bytes)
    }

    fn sync(&mut self, half: Half) -> Result<(), DeviceFault>
        ensures burns { Burns D.faults self.old self.new (is_ok result) }
        ensures durable { D.honest (inside self.old) →
            OnOk result (D.file (inside self.new) half
            ≡ clean (D.file (inside self.old) half).now) }
        ensures failed { D.honest (inside self.old) →
            OnErr result (D.file (inside self.new) half ≡ D.file (inside self.old) half) }
        ensures other { D.honest (inside self.old) →
            D.file (inside self.new) (other half) ≡ D.file (inside self.old) (other half) }
        ensures time { D.honest (inside self.old) →
            Elapses (D.moment (inside self.old)) (D.moment (inside self.new))
            (D.since (inside self.old)) (D.since (inside self.new))
            (MayLeave (D.file (inside self.new))) }
        ensures honest { (D.honest (inside self.old) → D.honest (inside self.new))
            × (D.honest (inside self.new) → D.honest (inside self.old)) }
        ensures counted { faults_of_both (D.faults (inside self.new)) (refusals self.new)
            ≡ faults_after (is_ok result) (faults_of_both (D.faults (inside self.old))
            (refusals self.old)) }
    {
        spend(&mut self.left, &mut self.refused)?;
        self.disk.sync(half)
    }

    fn failures(&self) -> u64 {
        self.disk.failures().saturating_add(self.refused)
    }
}
