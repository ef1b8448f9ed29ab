//! The faults of a disk of files: their count, and the cause of the first one.
ghost use Rattle.std.specs.Prelude.{◌≡◌, ◌↔◌, None};

use crate::DeviceFault;
use std::io;

/// A count of faults, up to 2^64 - 1, where it stays, and the first one's cause.
#[derive(Drop)]
pub struct Faults {
    count: u64,
    first: Option<io::Error>,
    ghost told: { (count ≡ 0) ↔ (first ≡ None) },
}

impl Faults {
    ghost use Rattle.std.specs.Prelude.{◌≡◌, None, Some, is_ok, IfErr, IfOk, IsSome};
    ghost use Rattle.charmlet_disk.specs.Disk.{faults_after};

    /// No faults yet.
    pub fn none() -> Faults
        ensures { result.count ≡ 0 }
    {
        Faults {
            count: 0,
            first: None,
        }
    }

    /// Passes on the answer of the system, and counts an error as a fault. The first error is kept.
    pub fn counted<T: Drop>(&mut self, done: io::Result<T>) -> Result<T, DeviceFault>
        ensures answered { is_ok result ≡ is_ok done }
        ensures value { IfOk result (λ value. done ≡ Ok value) }
        ensures counted { self.new.count ≡ faults_after (is_ok result) self.old.count }
        ensures first { IfErr done
            (λ error. self.old.first ≡ None → self.new.first ≡ Some error) }
        ensures kept { IsSome self.old.first → self.new.first ≡ self.old.first }
    {
        match done {
            Ok(value) => Ok(value),
            Err(error) => {
                self.count = self.count.saturating_add(1);
                self.first = self.first.or(Some(error));
                Err(DeviceFault)
            }
        }
    }

    /// How many faults there were.
    pub fn count(&self) -> u64
        ensures { result ≡ self.now.count }
    {
        self.count
    }

    /// Why the first fault occurred.
    pub fn first(&self) -> Option<io::Error>
        ensures { result ≡ self.now.first }
    {
        self.first
    }
}
