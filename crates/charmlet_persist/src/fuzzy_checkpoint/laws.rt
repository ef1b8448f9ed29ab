//! Laws of a fuzzy checkpoint under the other steps of its store. Each is the contract of a
//! function that does nothing.

ghost use Rattle.charmlet_persist.specs.FuzzyCheckpoint.Laws.{AssignmentsKeepRunning, DeliveriesKeepCaptured, FlushesKeepRunning, HaltsKeepRunning, ImagesKeepCaptured, ImagesCapture, RecordedDeliveriesKeepRunning, ProcessorsAreAll, ReleasesKeepRunning, RequestsKeepRunning, ShelvesAreTaken};

/// Requests, flushes, assignments, releases and failures of the device keep a checkpoint running
/// unchanged: none of them changes a record or is a delivery. A recorded delivery keeps it running
/// with the delivery added.
pub fn others_keep_running()
    ensures requests { RequestsKeepRunning }
    ensures flushes { FlushesKeepRunning }
    ensures assignments { AssignmentsKeepRunning }
    ensures releases { ReleasesKeepRunning }
    ensures halts { HaltsKeepRunning }
    ensures deliveries { RecordedDeliveriesKeepRunning }
{}

/// Images capture their elements, and captured elements stay captured. Once all elements on a
/// processor are captured, deliveries keep that: a new element is captured when it is constructed.
/// If that holds on each processor, all present elements are captured.
pub fn captured_stays()
    ensures images { ImagesCapture }
    ensures kept { ImagesKeepCaptured }
    ensures deliveries { DeliveriesKeepCaptured }
    ensures all { ProcessorsAreAll }
{}

/// The images of a shelf that shows its part of the present world can be taken, and capture all
/// elements on its processor.
pub fn shelves_are_taken()
    ensures { ShelvesAreTaken }
{}
