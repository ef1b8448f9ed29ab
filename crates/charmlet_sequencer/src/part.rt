//! The sequencer's ghost part of a shelf.

ghost use Rattle.std.specs.Prelude.{◌≡◌, Some, slice_get, slice_set};
ghost use Rattle.charmlet_sequencer.specs.Part.{part_on};

use charmlet_chare::Chare;
use charmlet_locks::{Authority, AuthorityName, Fragment, GhostValue};
use charmlet_shelf::Shelf;
use std::marker::{Brand, Model};

/// The sequencer's part of a shelf, which only contracts see. The one value that code makes is that
/// of an empty shelf.
#[derive(Drop)]
pub struct GhostPart;

impl Model for GhostPart {
    ghost use Rattle.charmlet_sequencer.specs.Part.{Part, no_part};

    ghost Value = { Part };

    ghost view = { λ _. no_part };
}

impl GhostValue<GhostPart> for Brand {
    ghost use Rattle.charmlet_sequencer.specs.Part.{no_part};

    ghost value = { no_part };
}

/// Writes the shelf's elements, and the delivery that is under way there, into the authority and
/// the shelf's fragment, which had the same value before.
pub(crate) fn write<C: Chare, B: AuthorityName>(
    parts: &mut Authority<GhostPart, B>,
    fragment: &mut Fragment<GhostPart, B>,
    shelf: &Shelf<C>,
)
    ensures agrees { slice_get parts.old fragment.old.0 ≡ Some fragment.old.1 }
    ensures parts { parts.new ≡ slice_set parts.old fragment.old.0 (Some (part_on shelf.now)) }
    ensures fragment { fragment.new ≡ (fragment.old.0, Some (part_on shelf.now)) }
{
    write_part::<Brand, C, B>(parts, fragment, shelf)
}

/// Writes the shelf's part, which `N` names, into the authority and the fragment.
fn write_part<N: GhostValue<GhostPart>, C: Chare, B: AuthorityName>(
    parts: &mut Authority<GhostPart, B>,
    fragment: &mut Fragment<GhostPart, B>,
    _shelf: &Shelf<C>,
)
    requires { N.value ≡ part_on _shelf.now }
    ensures agrees { slice_get parts.old fragment.old.0 ≡ Some fragment.old.1 }
    ensures parts { parts.new ≡ slice_set parts.old fragment.old.0 (Some (part_on _shelf.now)) }
    ensures fragment { fragment.new ≡ (fragment.old.0, Some (part_on _shelf.now)) }
{
    parts.change_to::<N>(fragment);
}
