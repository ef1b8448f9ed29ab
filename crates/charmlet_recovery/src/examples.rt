//! Worked examples, each the contract of a function that does nothing.

ghost use Rattle.charmlet_recovery.specs.Examples.{BlanksAreCounted, CatchUpFaults, CatchUpsAreDamaged, CountersAreCaughtUp, EventFaults, EventsAreDamaged, FilesRecover, LeafIsCaughtUp, PendingFaults, PendingIsDamaged, RestartsAreRefused, RoundsAreInOrder};

/// Two counters are taken into an image, one before and one after an addition.
pub fn counters_are_caught_up()
    ensures { CountersAreCaughtUp }
{}

/// A tree is destroyed and constructed again while its image is taken.
pub fn leaf_is_caught_up()
    ensures { LeafIsCaughtUp }
{}

/// The first fault of a catch-up list is found.
pub fn catch_up_faults_are_found()
    ensures { CatchUpFaults }
{}

/// The first fault of pending messages is found.
pub fn pending_faults_are_found()
    ensures { PendingFaults }
{}

/// The first fault of events is found.
pub fn event_faults_are_found()
    ensures { EventFaults }
{}

/// Faults in several rounds at once.
pub fn rounds_are_in_order()
    ensures { RoundsAreInOrder }
{}

/// Blanks are counted by what is written.
pub fn blanks_are_counted()
    ensures { BlanksAreCounted }
{}

/// Gates, generations and cuts of two files.
pub fn files_recover()
    ensures { FilesRecover }
{}

/// Files in which an event isn't what happened are damaged.
pub fn damaged_events_are_found()
    ensures { EventsAreDamaged }
{}

/// Files whose catch-up list says something impossible are damaged.
pub fn damaged_catch_ups_are_found()
    ensures { CatchUpsAreDamaged }
{}

/// Files in which a pending message was never sent are damaged.
pub fn damaged_pending_is_found()
    ensures { PendingIsDamaged }
{}

/// Why restarts from files are refused.
pub fn refused_restarts_have_causes()
    ensures { RestartsAreRefused }
{}
