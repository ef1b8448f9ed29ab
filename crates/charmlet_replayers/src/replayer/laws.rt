//! Laws of replayers. Each is the contract of a function that does nothing.

ghost use Rattle.charmlet_replayers.specs.Replayer.Merging.{MergedAreHome, MergedAreOpened};
ghost use Rattle.charmlet_replayers.specs.Replayer.Staying.{CatchUpsStayGood, ReplayersHaveBlanks, PartsAreGood, TasksHaveWords, TasksStayGood};

/// Shelves that are taken from replayers, each from the replayer that has the processor's elements,
/// show all records.
pub fn merged_replayers_are_home()
    ensures { MergedAreHome }
{}

/// A replayer's records stay good whatever it repeats, even behind another replayer's fault.
pub fn records_stay_good()
    ensures parts { PartsAreGood }
    ensures catch_ups { CatchUpsStayGood }
    ensures tasks { TasksStayGood }
    ensures words { TasksHaveWords }
    ensures blanks { ReplayersHaveBlanks }
{}

/// A map that agrees for each element with its replayer's map is the map of all records.
pub fn merged_maps_are_opened()
    ensures { MergedAreOpened }
{}
