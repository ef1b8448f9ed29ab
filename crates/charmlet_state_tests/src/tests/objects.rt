mod chare;
mod copies;
mod locate;
mod objects;
mod packing;
mod pup;
mod shelf;

use std::process::Abort;

// The bytes are these.
fn are_bytes(rt: &impl Abort, found: &[u8], wanted: &[u8]) {
    assert_eq!(rt; found, wanted);
}

// The words are these.
fn are_words(rt: &impl Abort, found: &[u64], wanted: &[u64]) {
    assert_eq!(rt; found, wanted);
}
