//! Laws of a recovery by several replayers. Each is the contract of a function that does nothing.

ghost use Rattle.charmlet_log_scan.specs.Partition.DispatchLaws.{DispatchedAreMade, LackIsFault, ScanKnowsIds};
ghost use Rattle.charmlet_log_scan.specs.Partition.Laws.{CatchUpByWorkers, EventsByWorkers, ScansStop, PlacesFall};

/// Replayers that each repeat the deliveries of a catch-up list to their own elements find its
/// first fault, and arrive at its records.
pub fn catch_up_by_workers()
    ensures { CatchUpByWorkers }
{}

/// Replayers that each repeat the deliveries of a log to their own elements, by a scan that runs no
/// entry method, find its first fault, and arrive at its records.
pub fn events_by_workers()
    ensures workers { EventsByWorkers }
    ensures scan { ScansStop }
{}

/// The records of a list begin one after the other in their file. So the earliest place at which a
/// replayer stops is the one after which the most bytes are left.
pub fn places_fall()
    ensures { PlacesFall }
{}

/// A scan that dispatches a blank for each written construction dispatches those that the events
/// take, as long as none of the events is faulty. If the scan lacks a blank, an earlier event is
/// faulty.
pub fn lack_is_fault()
    ensures made { DispatchedAreMade }
    ensures lack { LackIsFault }
{}

/// A scan that finds no fault gives each message an id that differs from those of all pending ones.
pub fn scan_knows_ids()
    ensures { ScanKnowsIds }
{}
