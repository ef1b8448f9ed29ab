//! The laboratory's disks: each fails from some call on, and can crash.

ghost use Rattle.std.specs.Prelude.{◌≡◌, ℕ, [], Option, Some};
ghost use Rattle.charmlet_model.specs.declared.half.Half.{Half};
ghost use Rattle.charmlet_disk.specs.Crash.{left_by};
ghost use Rattle.charmlet_disk.specs.File.{MayLeave, clean};

use charmlet_disk::{AnyDisk, CrashChoice, Disk};
use std::alloc::Global;

/// A disk on which the laboratory runs scripts. Its contracts on files hold if it is honest.
pub trait LabDisk: Disk {
    /// How many writes and syncs it still passes, if it fails each one after them.
    ghost calls_left: { Self → Option ℕ };

    /// A new disk with nothing on it, which passes `calls` writes and syncs, and then fails each.
    fn failing(alloc: Global, calls: u64) -> Self
        ensures calls { calls_left result ≡ Some calls }
        ensures empty { Self.honest result → (half : Half) → Self.file result half ≡ clean [] };

    /// The disk that a crash leaves, by `choice`: one of the outcomes that a crash may leave, all
    /// of it durable.
    fn crash(self, choice: CrashChoice) -> Self
        ensures left { Self.honest self → (half : Half) →
            Self.file result half ≡ clean (left_by choice (Self.file self half)) }
        ensures lawful { Self.honest self →
            MayLeave (Self.file self) (λ half. left_by choice (Self.file self half)) }
        ensures honest { (Self.honest self → Self.honest result)
            × (Self.honest result → Self.honest self) };
}

impl LabDisk for AnyDisk {
    ghost use Rattle.charmlet_disk.specs.AnyDisk.AnyDisk.{calls_left};

    ghost calls_left = { calls_left };

    fn failing(alloc: Global, calls: u64) -> Self {
        AnyDisk::failing(alloc, calls)
    }

    fn crash(self, choice: CrashChoice) -> Self {
        AnyDisk::crash(self, choice)
    }
}
