//! The name on which types under different locks have to agree.

use charmlet_locks::AuthorityName;
use std::marker::Brand;

/// The name of one runtime: its authorities, of shelves, of seats, of passes and of checkpoints,
/// and the store with which it opened. The call that opens it picks them, and all types under its
/// locks are generic in the name. As an authority's name it is that of the authority of shelves.
pub trait RuntimeName: AuthorityName {
    ghost use Rattle.std.specs.Prelude.{ℕ};
    ghost use Rattle.atomic_table.specs.Seated.{TableId};
    ghost use Rattle.charmlet_model.specs.World.{World};

    /// The table of the authority of seats.
    ghost seats: { TableId };

    /// The table of the authority of passes.
    ghost passes: { TableId };

    /// The table of the authority of the tokens of checkpoints.
    ghost checkpoints: { TableId };

    /// The world with which the store opened.
    ghost opening: { World };

    /// How many events came before that world.
    ghost before: { ℕ };

    /// How many processors there are.
    ghost processors: { ℕ };

    /// The generation at which the store opened.
    ghost generation: { ℕ };

    /// The fact that the disk with which the store opened is honest.
    ghost honest: { Type 0 };
}

impl RuntimeName for Brand {
    ghost use Rattle.std.specs.Prelude.{[]};
    ghost use Rattle.charmlet_locks.specs.GhostAuth.Agreement.{no_table};
    ghost use Rattle.charmlet_model.specs.Sound.{new_world};

    ghost seats = { no_table };

    ghost passes = { no_table };

    ghost checkpoints = { no_table };

    ghost opening = { new_world [] };

    ghost before = { 0 };

    ghost processors = { 0 };

    ghost generation = { 0 };

    ghost honest = { ⊥ };
}
