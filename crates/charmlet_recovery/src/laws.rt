//! Laws of recovery. Each is the contract of a function that does nothing.

ghost use Rattle.charmlet_recovery.specs.Laws.{AppendedEventsRecover, DeliveriesGrow, FaultlessIsSound, HistoriesRecover, MomentsOfShelves, SealsRecover};
ghost use Rattle.charmlet_recovery.specs.FileLaws.{BatchesAreSaved, ClosedIsNothing, FilesOfHistoriesRecover, HistoriesAreSaved, KeptIsLawful, LawfulGrows, LawfulIsKept, LawfulJoins, LawfulParts, NothingIsClosed, OpenedIsLawful, RecoveredIsFit, SealedImagesAreWritten, SpelledIsSuperseded, RecoveredIsTaken, RecoveredWasStored, StoredIsOne, StoredIsRecovered, StoredIsTaken, TakenWasStored, ToldIsRecovered};
ghost use Rattle.charmlet_recovery.specs.WritingLaws.{BatchesLengthen, BatchesStand, CheckpointsAreStored, CreationsAreStored, FlushesAreStored, HalvesHaveSize, ImagesHaveSize, ImagesStand, LawfulLacksBlanksAlone, LegalHistoriesJoin, LegalHistoriesPart, NewStoresStand, NewestHalvesGoOn, NextHalvesAreStored, NextHalvesStand, NothingIsRefused, StandingIsStored, StoredIsStanding, TakenImagesAreSaved};
ghost use Rattle.charmlet_recovery.specs.RestartLaws.{FaultsStandThere, FoundLacksBlanksAlone, LeastShortIsFound, OffsetsRise, RestartsAreRefusedForCause, RestartsAreTaken};
ghost use Rattle.charmlet_recovery.specs.FaultLaws.{CatchUpGoesOn, EventsGoOn, FaultsArePlaces, FaultsStay, PendingGoesOn, RoundsEnd};
ghost use Rattle.charmlet_recovery.specs.BlankLaws.{BlanksAreThoseMade, BlanksSuffice, BlanksSufficeNext};
ghost use Rattle.charmlet_recovery.specs.ReplayLaws.{CatchUpIsOwn, CatchUpTestsAreOwn, ListsGiveRecords, ListsNeedNoEntries, ScansEndAsWorlds, ReplayFindsFirstFault, ReplayedRecordsAreOwn, RepliesAreLast, TestsAreOwn};

/// An image of a fit world and the log of a legal history come to the world after it. Events that
/// are appended to a log are in it too, whatever image and log came before.
pub fn histories_recover()
    ensures plain { HistoriesRecover }
    ensures appended { AppendedEventsRecover }
{}

/// An image that was taken while events came, each element at its own moment, leads with its
/// catch-up list to the world at the end. It can be written unless it is too long. An element may
/// be taken when its shelf is reached, or as soon as it is absent.
pub fn seals_recover()
    ensures seals { SealsRecover }
    ensures moments { MomentsOfShelves }
    ensures lists { DeliveriesGrow }
    ensures written { SealedImagesAreWritten }
{}

/// An image and a log in the format and without a fault, whoever wrote them, lead to a fit world by
/// a legal history.
pub fn faultless_is_sound()
    ensures { FaultlessIsSound }
{}

/// A fault is the place of a record, with no fault before it. It stays the first one when the log
/// grows.
pub fn faults_are_places()
    ensures places { FaultsArePlaces }
    ensures stay { FaultsStay }
{}

/// Records are tested one by one: the next one is scanned, or it is the first fault.
pub fn records_are_tested_in_order()
    ensures catch_up { CatchUpGoesOn }
    ensures pending { PendingGoesOn }
    ensures events { EventsGoOn }
    ensures rounds { RoundsEnd }
{}

/// A restart without faults uses exactly the blanks that the files call for. A restart with a fault
/// uses no more of them up to and including the faulty record.
pub fn blanks_are_those_made()
    ensures made { BlanksAreThoseMade }
    ensures suffice { BlanksSuffice }
    ensures next { BlanksSufficeNext }
{}

/// The messages of each element alone give the records of a history. A log scan, which runs no
/// entry method, gives these messages, and ends with the rest of the world, except the words of
/// replies. Those are the words of the last reply to each request.
pub fn lists_give_records()
    ensures records { ListsGiveRecords }
    ensures lists { ListsNeedNoEntries }
    ensures scan { ScansEndAsWorlds }
    ensures replies { RepliesAreLast }
{}

/// In any log, the tests of such a scan and of each receiver find the first fault, and each
/// receiver's tests and record depend on its own messages alone.
pub fn replay_finds_first_fault()
    ensures first { ReplayFindsFirstFault }
    ensures records { ReplayedRecordsAreOwn }
    ensures tests { TestsAreOwn }
{}

/// Each element is caught up and tested by its own deliveries alone.
pub fn catch_up_is_own()
    ensures records { CatchUpIsOwn }
    ensures tests { CatchUpTestsAreOwn }
{}

/// The contents of a half are taken if they supersede the other half's, and contents that are taken
/// from bytes were stored there. The next generation supersedes a half. Two closed halves recover
/// to nothing, and only they do.
pub fn stored_is_taken()
    ensures taken { StoredIsTaken }
    ensures superseded { SpelledIsSuperseded }
    ensures stored { TakenWasStored }
    ensures recovered { RecoveredIsTaken }
    ensures closed { ClosedIsNothing }
    ensures nothing { NothingIsClosed }
{}

/// What two files store is what they recover to, and nothing else. What files of bytes recover to
/// was stored there.
pub fn stored_is_recovered()
    ensures recovered { StoredIsRecovered }
    ensures stored { RecoveredWasStored }
    ensures one { StoredIsOne }
{}

/// The image of a fit world and the log of a legal history can be written, and files that hold them
/// recover to the world after it. This also holds with one more batch, whatever was stored before.
/// Files of bytes recover to a fit world.
pub fn histories_are_saved()
    ensures histories { HistoriesAreSaved }
    ensures files { FilesOfHistoriesRecover }
    ensures batches { BatchesAreSaved }
    ensures fit { RecoveredIsFit }
{}

/// Files that keep the durable events of a history are lawful. Lawful files stay lawful when the
/// history grows, when less of it has to be durable, and from one opening world to another. What a
/// client was told of the durable events is true of what a lawful outcome recovers.
pub fn lawful_outcomes_stay_lawful()
    ensures kept { KeptIsLawful }
    ensures was_kept { LawfulIsKept }
    ensures grows { LawfulGrows }
    ensures joins { LawfulJoins }
    ensures parts { LawfulParts }
    ensures opened { OpenedIsLawful }
    ensures told { ToldIsRecovered }
{}

/// A restart is refused only for one of four causes. They are in this order: nothing is there, a
/// half breaks the format, blanks are missing (the lowest such kind is named), or a record has a
/// fault. If the files recover to a world, it is refused only for missing blanks.
pub fn restarts_are_refused_for_cause()
    ensures short { LeastShortIsFound }
    ensures taken { RestartsAreTaken }
    ensures cause { RestartsAreRefusedForCause }
    ensures blanks { FoundLacksBlanksAlone }
{}

/// The offset of a fault is that of its record's first byte, and offsets rise with places, so the
/// first fault of a round has the least offset.
pub fn faults_stand_there()
    ensures there { FaultsStandThere }
    ensures rise { OffsetsRise }
{}

/// How many bytes an image of a world takes, and a half with one more batch.
pub fn halves_have_sizes()
    ensures image { ImagesHaveSize }
    ensures half { HalvesHaveSize }
    ensures batch { BatchesLengthen }
{}

/// A history is legal if and only if its first part is legal, and its rest is legal from the world
/// after that part.
pub fn legal_histories_have_parts()
    ensures part { LegalHistoriesPart }
    ensures join { LegalHistoriesJoin }
{}

/// What a half stores beside a spare one at each step of a flush, a checkpoint or a creation: after
/// a crash there, the world before or the world after.
pub fn written_worlds_are_stored()
    ensures stands { StandingIsStored }
    ensures stored { StoredIsStanding }
    ensures batch { BatchesStand }
    ensures flush { FlushesAreStored }
    ensures image { ImagesStand }
    ensures checkpoint { CheckpointsAreStored }
    ensures new_store { NewStoresStand }
    ensures creation { CreationsAreStored }
{}

/// A restart from a lawful outcome is refused only for missing blanks. If nothing was created, a
/// restart finds nothing.
pub fn lawful_outcomes_restart()
    ensures nothing { NothingIsRefused }
    ensures lawful { LawfulLacksBlanksAlone }
{}

/// An image that was taken while events came can be written into a half, which then means the world
/// after them. While it replaces the half that it supersedes, the files store one of the two
/// worlds.
pub fn taken_images_are_stored()
    ensures saved { TakenImagesAreSaved }
    ensures newest { NewestHalvesGoOn }
    ensures stands { NextHalvesStand }
    ensures stored { NextHalvesAreStored }
{}
