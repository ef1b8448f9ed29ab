//! Comparison of two worlds.

ghost use Rattle.std.specs.Prelude.{◌≡◌, ◌↔◌, true, option_copied, IfOk};
ghost use Rattle.std.specs.List.Sorted.{IsStrictlySortedBy};
ghost use Rattle.std.specs.Map.{keys_of};
ghost use Rattle.std.specs.Ordering.{nat_cmp};
ghost use Rattle.charmlet_model.specs.Fit.{IsFit};
ghost use Rattle.charmlet_model.specs.Names.{elem_cmp};
ghost use Rattle.charmlet_lab.specs.Same.{HasEntries};

use charmlet_model::{ClientRow, KindVersion, Manifest, Message, Record, State, Window, Words};
use charmlet_reference::PlainWorld;
use std::alloc::{AllocError, Global};

/// Whether two worlds are the same. It fails only when out of memory.
pub fn is_same_world(
    alloc: Global,
    one: &PlainWorld,
    other: &PlainWorld,
) -> Result<bool, AllocError>
    requires one { IsFit one.now }
    requires other { IsFit other.now }
    ensures { IfOk result (λ same. (same ≡ true) ↔ (one.now ≡ other.now)) }
{
    let has_same_arrays = is_same_manifest(alloc, one.manifest(), other.manifest())?;
    Ok(
        has_same_arrays
            && is_same_list(one.pending(), other.pending())
            && are_same_records(one, other)
            && are_same_rows(one, other),
    )
}

/// Whether two manifests are the same. It fails only when out of memory.
fn is_same_manifest(alloc: Global, one: &Manifest, other: &Manifest) -> Result<bool, AllocError>
    requires one { IsStrictlySortedBy nat_cmp (keys_of one.now) }
    requires other { IsStrictlySortedBy nat_cmp (keys_of other.now) }
    ensures { IfOk result (λ same. (same ≡ true) ↔ (one.now ≡ other.now)) }
{
    let others = other.arrays(alloc)?;
    if !has_kind_versions(one, &others) {
        return Ok(false);
    }
    let arrays = one.arrays(alloc)?;
    Ok(has_kind_versions(other, &arrays))
}

/// Whether two worlds have the same records.
fn are_same_records(one: &PlainWorld, other: &PlainWorld) -> bool
    requires one { IsStrictlySortedBy elem_cmp (keys_of one.now.records) }
    requires other { IsStrictlySortedBy elem_cmp (keys_of other.now.records) }
    ensures { (result ≡ true) ↔ (one.now.records ≡ other.now.records) }
{
    has_records(one, other) && has_records(other, one)
}

/// Whether two worlds have the same rows of clients.
fn are_same_rows(one: &PlainWorld, other: &PlainWorld) -> bool
    requires one { IsStrictlySortedBy nat_cmp (keys_of one.now.clients) }
    requires other { IsStrictlySortedBy nat_cmp (keys_of other.now.clients) }
    ensures { (result ≡ true) ↔ (one.now.clients ≡ other.now.clients) }
{
    has_rows(one, other) && has_rows(other, one)
}

/// Whether a manifest has each of these arrays, with its kind and version.
fn has_kind_versions(manifest: &Manifest, arrays: &[(u16, KindVersion)]) -> bool
    ensures { (result ≡ true) ↔ HasEntries nat_cmp manifest.now arrays.now }
{
    for (array, kind_version) in arrays {
        if manifest.kind_version_of(*array) != Some(*kind_version) {
            return false;
        }
    }
    true
}

/// Whether a world has each record of another one.
fn has_records(all: &PlainWorld, some: &PlainWorld) -> bool
    ensures { (result ≡ true) ↔ HasEntries elem_cmp all.now.records some.now.records }
{
    for (elem, record) in some.records() {
        let Some(found) = all.record(*elem) else {
            return false;
        };
        if !is_same_record(found, record) {
            return false;
        }
    }
    true
}

/// Whether a world has each client's row of another one.
fn has_rows(all: &PlainWorld, some: &PlainWorld) -> bool
    ensures { (result ≡ true) ↔ HasEntries nat_cmp all.now.clients some.now.clients }
{
    for (client, row) in some.clients() {
        let Some(found) = all.client(*client) else {
            return false;
        };
        if !is_same_row(found, row) {
            return false;
        }
    }
    true
}

fn is_same_record(one: &Record, other: &Record) -> bool
    ensures { (result ≡ true) ↔ (one.now ≡ other.now) }
{
    one.sent == other.sent
        && one.received == other.received
        && is_same_state(one.state.as_ref(), other.state.as_ref())
}

fn is_same_state(one: Option<&State>, other: Option<&State>) -> bool
    ensures { (result ≡ true) ↔ (option_copied one.entry ≡ option_copied other.entry) }
{
    match (one, other) {
        (None, None) => true,
        (Some(one), Some(other)) => is_same_object(one, other),
        _ => false,
    }
}

fn is_same_object(one: &State, other: &State) -> bool
    ensures { (result ≡ true) ↔ (one.now ≡ other.now) }
{
    match (one, other) {
        (State::FirstCounter { count }, State::FirstCounter { count: k }) => count == k,
        (State::Counter { count, peak }, State::Counter { count: k, peak: p }) => {
            count == k && peak == p
        }
        (State::Ring { next, seen }, State::Ring { next: n, seen: s }) => next == n && seen == s,
        (State::Account { balance }, State::Account { balance: b }) => balance == b,
        (
            State::Sum {
                want,
                got,
                total,
                up,
            },
            State::Sum {
                want: w,
                got: g,
                total: t,
                up: u,
            },
        ) => want == w && got == g && total == t && up == u,
        (State::Tree { depth }, State::Tree { depth: d }) => depth == d,
        (State::Tape { items }, State::Tape { items: i }) => is_same_words(items, i),
        _ => false,
    }
}

fn is_same_words(one: &Words, other: &Words) -> bool
    ensures { (result ≡ true) ↔ (one.now ≡ other.now) }
{
    one.as_slice() == other.as_slice()
}

fn is_same_row(one: &ClientRow, other: &ClientRow) -> bool
    ensures { (result ≡ true) ↔ (one.now ≡ other.now) }
{
    one.last == other.last && is_same_window(&one.window, &other.window)
}

fn is_same_reply(one: Option<&Words>, other: Option<&Words>) -> bool
    ensures { (result ≡ true) ↔ (option_copied one.entry ≡ option_copied other.entry) }
{
    match (one, other) {
        (None, None) => true,
        (Some(one), Some(other)) => is_same_words(one, other),
        _ => false,
    }
}

fn is_same_window(one: &Window, other: &Window) -> bool
    ensures { (result ≡ true) ↔ (one.now ≡ other.now) }
{
    if one.len() != other.len() {
        return false;
    }
    for place in 0..one.len() {
        if !is_same_reply(one.get(place), other.get(place)) {
            return false;
        }
    }
    true
}

fn is_same_message(one: &Message, other: &Message) -> bool
    ensures { (result ≡ true) ↔ (one.now ≡ other.now) }
{
    one.id == other.id
        && one.to == other.to
        && one.entry == other.entry
        && is_same_words(&one.words, &other.words)
}

fn is_same_list(one: &[Message], other: &[Message]) -> bool
    ensures { (result ≡ true) ↔ (one.now ≡ other.now) }
{
    if one.len() != other.len() {
        return false;
    }
    for (message, also) in one.iter().zip(other) {
        if !is_same_message(message, also) {
            return false;
        }
    }
    true
}
