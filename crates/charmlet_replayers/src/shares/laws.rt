//! Laws of shares. Each is a clause of the contract of a function that does nothing.

ghost use Rattle.charmlet_replayers.specs.Shares.Laws.{CatchUpsAddUp, RecordsAddUp, TasksAddUp, TogetherIsSum};

/// The blanks that replayers need, each for its own elements, are together those that all elements
/// need. This holds for the records of an image, for its catch-up list, and for the tasks of a log.
/// Their number is a sum over a list of the replayers.
pub fn shares_add_up()
    ensures sum { TogetherIsSum }
    ensures records { RecordsAddUp }
    ensures catch_ups { CatchUpsAddUp }
    ensures tasks { TasksAddUp }
{}
