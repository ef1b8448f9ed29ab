//! The meanings of a line's words.

use charmlet_disk::CrashChoice;
use charmlet_model::{Half, Kind};
use charmlet_testing::Failed;
use std::alloc::Global;
use std::str::FromStr;

/// The number that a word spells.
pub(crate) fn number<T: FromStr>(word: &str) -> Result<T, Failed>
where
    <T as FromStr>::Err: Drop,
{
    match word.parse::<T>() {
        Ok(number) => Ok(number),
        Err(_) => Err(Failed::Malformed),
    }
}

/// The half that a word names.
pub(crate) fn half(word: &str) -> Result<Half, Failed> {
    match word {
        "0" => Ok(Half::Zero),
        "1" => Ok(Half::One),
        _ => Err(Failed::Malformed),
    }
}

/// The kind that a word names.
pub(crate) fn kind(word: &str) -> Result<Kind, Failed> {
    Kind::of_number(number(word)?).ok_or(Failed::Malformed)
}

/// The choice of a crash that a word names.
pub(crate) fn choice(word: &str) -> Result<CrashChoice, Failed> {
    match word {
        "old" => Ok(CrashChoice::Old),
        "new" => Ok(CrashChoice::New),
        "zeros" => Ok(CrashChoice::Zeros),
        "ones" => Ok(CrashChoice::Ones),
        "sevens" => Ok(CrashChoice::Sevens),
        "first-halves" => Ok(CrashChoice::FirstHalves),
        _ => Err(Failed::Malformed),
    }
}

/// The bytes that words spell in hexadecimal.
pub(crate) fn bytes(alloc: Global, words: &[&str]) -> Result<Vec<u8>, Failed> {
    let mut bytes = Vec::new(alloc);
    for word in words {
        match u8::from_str_radix(word, 16) {
            Ok(byte) => bytes.push(byte)?,
            Err(_) => return Err(Failed::Malformed),
        }
    }
    Ok(bytes)
}
