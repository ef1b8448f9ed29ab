//! Halves byte for byte, as contracts of functions that do nothing.

ghost use Rattle.charmlet_image.specs.Examples.{EveryCut, NewStores, OlderStores, FlushedStores, CheckpointedStores, AlteredStores, CaughtStores, TwoHalves, Offsets, WaitingStores};

/// A new store opens. It also opens with version 1 of its array's kind; a version that the kind
/// doesn't have is damage at the version.
pub fn new_stores_are_read()
    ensures { NewStores }
{}

/// The new store under the second mark opens, with version 1. Cut to one byte it is closed; nine
/// longer cuts are damaged at the field that runs past the end.
pub fn older_stores_are_read()
    ensures { OlderStores }
{}

/// An older store is read after its first flush.
pub fn flushed_stores_are_read()
    ensures { FlushedStores }
{}

/// The image that was made of the flushed store under the second mark is read.
pub fn checkpointed_stores_are_read()
    ensures { CheckpointedStores }
{}

/// A store with one changed byte is damaged.
pub fn altered_stores_are_damaged()
    ensures { AlteredStores }
{}

/// An image that was taken while deliveries went on is read.
pub fn caught_stores_are_read()
    ensures { CaughtStores }
{}

/// An image with a window of three items, pending messages, and an element that is gone is read.
pub fn waiting_stores_are_read()
    ensures { WaitingStores }
{}

/// The right one of two halves is taken, and the right fault is named.
pub fn two_halves_are_read()
    ensures { TwoHalves }
{}

/// The records of these stores stand at known offsets.
pub fn records_have_offsets()
    ensures { Offsets }
{}

/// The flushed store is damaged, cut at any length.
pub fn every_cut_is_damaged()
    ensures { EveryCut }
{}
