//! Laws of the format. Each is the contract of a function that does nothing.

ghost use Rattle.std.specs.Prelude.{ℕ, ◌+◌, List, length};
ghost use Rattle.charmlet_record.specs.Lawful.{Lawful, InReach, Within};
ghost use Rattle.charmlet_image.specs.declared.header.Mark.{Mark};
ghost use Rattle.charmlet_image.specs.declared.header.Header.{Header};
ghost use Rattle.charmlet_image.specs.Images.{spell_image, spell_header};
ghost use Rattle.charmlet_image.specs.Reading.{read_image, read_header};
ghost use Rattle.charmlet_image.specs.Written.{IsImage, IsHeader};
ghost use Rattle.charmlet_image.specs.Places.{RecordsStandThere};
ghost use Rattle.charmlet_image.specs.NewStores.{NewStoresOpen};
ghost use Rattle.charmlet_image.specs.FitImages.{FitWorldsHaveImages};
ghost use Rattle.charmlet_image.specs.Spelled.{ClosedIsShut, FoundIsSpelled, SpelledIsFound};
ghost use Rattle.charmlet_image.specs.Halves.{BatchesAreAppended, HalvesAreRead, HalvesAreOne, ReadHalvesWereSpelled, LaterHalvesAreTaken, read_saved};

/// Images and headers are read back from their spelling, whatever follows, and any that are read
/// were spelled so.
pub fn images_are_lawful()
    ensures images { (mark : Mark) → Lawful (IsImage mark) (spell_image mark) (read_image mark) }
    ensures headers { Lawful IsHeader spell_header read_header }
{}

/// A half is read as its header, image and batches, up to the first closed gate, and was spelled
/// so. Its bytes spell nothing else. A batch after its gate becomes the last of the half's batches
/// once that gate is open.
pub fn halves_are_lawful()
    ensures read_back { HalvesAreRead }
    ensures spelled_so { ReadHalvesWereSpelled }
    ensures one { HalvesAreOne }
    ensures appended { BatchesAreAppended }
{}

/// A fault is at a byte that is read, or at the end of these bytes, so its offset is at most the
/// file's length.
pub fn faults_are_within()
    ensures images { (mark : Mark) → Within (read_image mark) }
    ensures headers { Within read_header }
    ensures halves { (h : Header) (bytes : List ℕ) →
        InReach (length bytes + 4) (read_saved h bytes) }
{}

/// The later of two open halves is taken, if their generations are consecutive.
pub fn later_halves_are_taken()
    ensures { LaterHalvesAreTaken }
{}

/// Each record of a half that is read stands at its offset, which follows from the lengths of the
/// records before it.
pub fn records_stand_there()
    ensures { RecordsStandThere }
{}

/// A fit world that is not too large has an image that can be written.
pub fn fit_worlds_have_images()
    ensures { FitWorldsHaveImages }
{}

/// A new store opens once its gate is open, as the image of its arrays with no events.
pub fn new_stores_open()
    ensures { NewStoresOpen }
{}

/// A file that begins with a half before any closed gate means that half, and files of bytes mean
/// nothing else. A half is closed if it has no second byte, or its first byte isn't an open gate.
pub fn files_begin_with_halves()
    ensures found { SpelledIsFound }
    ensures spelled { FoundIsSpelled }
    ensures closed { (bytes : List ℕ) → ClosedIsShut bytes }
{}
