//! Crashes: what becomes of bytes that were written since the last sync.

/// What a crash of a disk in memory leaves in the ranges that were written since the last sync of
/// their half. Everything outside these ranges is as it was at that sync.
#[derive(Clone, Copy, Debug, PartialEq, Eq)]
pub enum CrashChoice {
    /// The old bytes. What is past the old end is cut off.
    Old,
    /// The new bytes.
    New,
    /// A byte `00` in each place.
    Zeros,
    /// A byte `01` in each place.
    Ones,
    /// A byte `07` in each place.
    Sevens,
    /// The new bytes in the first half of each range, rounded down, and the old ones elsewhere.
    /// Past the old end, a place outside every first half is `00` if a place inside one follows,
    /// and is cut off otherwise.
    FirstHalves,
}

impl CrashChoice {
    /// All six choices of a crash.
    pub const ALL: [CrashChoice; 6] = [
        CrashChoice::Old,
        CrashChoice::New,
        CrashChoice::Zeros,
        CrashChoice::Ones,
        CrashChoice::Sevens,
        CrashChoice::FirstHalves,
    ];
}
