//! The ghost world with which a history opens.

ghost use Rattle.std.specs.Prelude.{◌≡◌};
ghost use Rattle.std.specs.Borrow.{ftrue};
ghost use Rattle.charmlet_model.specs.World.{World};
ghost use Rattle.charmlet_model.specs.Sound.{new_world};
ghost use Rattle.charmlet_history.specs.Parts.{world_of};

use charmlet_model::{ClientRow, Elem, Manifest, Message, Record};
use std::marker::Model;

/// A world that only contracts read. It has no bytes. The clauses of its owner tie it to a store.
#[derive(Drop)]
pub struct GhostWorld {
    pub ghost world: { World },
}

impl Model for GhostWorld {
    ghost also_owns = { λ _. ftrue };
}

// It owns nothing, so threads may own and share it.
unsafe impl Send for GhostWorld {}

unsafe impl Sync for GhostWorld {}

/// A source of a world, for contracts alone.
pub trait HasWorld {
    /// The world of the source.
    ghost world: { Self → World };
}

impl GhostWorld {
    /// The world of its source. It does nothing at run time.
    pub fn of<W: HasWorld>(_owner: &W) -> Self
        ensures { result.world ≡ W.world _owner.now }
    {
        GhostWorld {}
    }
}

/// The world of a new store has its arrays and nothing else.
impl HasWorld for Manifest {
    ghost world = { new_world };
}

/// A world in parts: its arrays, the records of its elements and the rows of its clients in rising
/// order, and the pending messages in order of arrival.
#[derive(Debug, Drop)]
pub struct WorldParts {
    pub manifest: Manifest,
    pub records: Vec<(Elem, Record)>,
    pub pending: Vec<Message>,
    pub clients: Vec<(u32, ClientRow)>,
}

impl HasWorld for WorldParts {
    ghost world = { world_of };
}
