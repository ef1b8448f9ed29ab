//! Kinds in their versions.

use crate::kind::Kind;

/// A kind in one of its versions. `Counter` is version 2 of the counter, its newest, and
/// `FirstCounter` is version 1, which old files have. Each other kind has one version.
#[derive(Clone, Copy, Debug, PartialEq, Eq)]
pub enum KindVersion {
    Counter,
    Ring,
    Account,
    Sum,
    Tree,
    Tape,
    FirstCounter,
}

impl KindVersion {
    ghost use Rattle.std.specs.Prelude.{◌≡◌, Some};
    ghost use Rattle.charmlet_model.specs.KindVersion.{kind_of_version, number_of_version, is_newest, newest, numbered_version, versioned};
    ghost use Rattle.charmlet_model.specs.Kind.{kind_number};

    /// The newest kind version of kind `number`, 1 to 6, or `None` for any other number.
    pub fn of_number(number: u16) -> Option<KindVersion>
        ensures { result ≡ numbered_version number }
    {
        match number {
            1 => Some(KindVersion::Counter),
            2 => Some(KindVersion::Ring),
            3 => Some(KindVersion::Account),
            4 => Some(KindVersion::Sum),
            5 => Some(KindVersion::Tree),
            6 => Some(KindVersion::Tape),
            _ => None,
        }
    }

    /// Kind `number` in version `version`, both from 1 on, or `None` if there is no such kind or
    /// version.
    pub fn of_version(number: u16, version: u16) -> Option<KindVersion>
        ensures { result ≡ versioned number version }
    {
        match (number, version) {
            (1, 1) => Some(KindVersion::FirstCounter),
            (1, 2) => Some(KindVersion::Counter),
            (2, 1) => Some(KindVersion::Ring),
            (3, 1) => Some(KindVersion::Account),
            (4, 1) => Some(KindVersion::Sum),
            (5, 1) => Some(KindVersion::Tree),
            (6, 1) => Some(KindVersion::Tape),
            _ => None,
        }
    }

    /// The kind of this kind version.
    pub fn kind(self) -> Kind
        ensures { result ≡ kind_of_version self }
    {
        match self {
            KindVersion::FirstCounter => Kind::Counter,
            KindVersion::Counter => Kind::Counter,
            KindVersion::Ring => Kind::Ring,
            KindVersion::Account => Kind::Account,
            KindVersion::Sum => Kind::Sum,
            KindVersion::Tree => Kind::Tree,
            KindVersion::Tape => Kind::Tape,
        }
    }

    /// The version number of this kind version, from 1 on.
    pub fn version(self) -> u16
        ensures value { result ≡ number_of_version self }
        ensures inverse { versioned (kind_number (kind_of_version self)) result ≡ Some self }
    {
        match self {
            KindVersion::FirstCounter => 1,
            KindVersion::Counter => 2,
            KindVersion::Ring => 1,
            KindVersion::Account => 1,
            KindVersion::Sum => 1,
            KindVersion::Tree => 1,
            KindVersion::Tape => 1,
        }
    }

    /// The newest version of this kind.
    pub fn newest(self) -> KindVersion
        ensures { result ≡ newest self }
    {
        match self {
            KindVersion::FirstCounter => KindVersion::Counter,
            kind_version => kind_version,
        }
    }

    /// Whether this kind has no newer version.
    pub fn is_newest(self) -> bool
        ensures { result ≡ is_newest self }
    {
        match self {
            KindVersion::FirstCounter => false,
            _ => true,
        }
    }
}
