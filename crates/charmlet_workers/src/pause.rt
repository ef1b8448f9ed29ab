//! The trait that a running checkpoint tells of each shelf.

/// A pause, which a checkpoint tells of each shelf.
pub trait Pause: Sync {
    /// Is told that the images of the processor's shelf were taken. The caller has no lock, and
    /// others work.
    fn imaged(&self, processor: u16);
}

/// A pause that does nothing.
#[derive(Clone, Copy, Debug, Drop)]
pub struct NoPause;

impl Pause for NoPause {
    fn imaged(&self, _processor: u16) {}
}
