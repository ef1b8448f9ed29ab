//! Disks of two files, called halves, under one clock: what their calls do, and what a crash may
//! leave.
#![tactic(auto)]

mod any_disk;
mod crash;
mod disk;
mod file_disk;
mod fuse_disk;
pub mod laws;
mod mem_disk;
mod once_disk;
mod synced;

pub use crate::any_disk::AnyDisk;
pub use crate::crash::CrashChoice;
pub use crate::disk::{DeviceFault, Disk};
pub use crate::file_disk::FileDisk;
pub use crate::fuse_disk::FuseDisk;
pub use crate::mem_disk::{Call, MemDisk};
pub use crate::once_disk::OnceDisk;
pub use crate::synced::{sync_both, write_and_sync};
