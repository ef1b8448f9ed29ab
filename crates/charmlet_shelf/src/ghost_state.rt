//! Ghost states of objects, which only contracts read.

ghost use Rattle.std.specs.Prelude.{◌≡◌};
ghost use Rattle.std.specs.Borrow.{ftrue};
ghost use Rattle.charmlet_model.specs.declared.state.State.{State};

use charmlet_chare::Chare;
use std::marker::Model;

/// The state of an object at some moment. It has no bytes, and only contracts read it. The clauses
/// of its owner tie it to the object, which may have changed since.
#[derive(Drop)]
pub(crate) struct GhostState {
    pub ghost state: { State },
}

impl Model for GhostState {
    ghost also_owns = { λ _. ftrue };
}

// It owns nothing, so threads may have it and share it.
unsafe impl Send for GhostState {}

unsafe impl Sync for GhostState {}

impl GhostState {
    /// The object's present state. It does nothing at run time.
    pub(crate) fn of<C: Chare>(_object: &C) -> Self
        ensures { result.state ≡ C.state _object.now }
    {
        GhostState {}
    }
}
