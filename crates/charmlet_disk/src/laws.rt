//! Laws of every disk. Each law is the contract of a function that does nothing.
ghost use Rattle.charmlet_disk.specs.Laws.{SettledDisksLeaveWhatIsRead};

/// A crash of a settled disk leaves in each half what a read gives, and nothing else. A disk is
/// settled if nothing was written to either half since its last sync.
pub fn settled_disks_leave_what_is_read()
    ensures { SettledDisksLeaveWhatIsRead }
{}
