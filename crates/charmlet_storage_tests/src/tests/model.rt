mod reading;
mod worlds;

use charmlet_model::{
    CONSTRUCT, ClientRow, Elem, Half, Kind, KindVersion, Manifest, MsgId, Origin, Outgoing,
    Reaction, Refusal, State, Words,
};
use charmlet_pup::PupFault;
use charmlet_reference::{pack_state, react, read_state};
use std::alloc::AllocGlobal;
use std::fmt::Display;
use std::process::Abort;

const ME: Elem = Elem { array: 2, index: 3 };

// A tape with two items, and its bytes.
const ITEMS: [u64; 2] = [1, 258];

const TAPE: [u8; 20] = [2, 0, 0, 0, 1, 0, 0, 0, 0, 0, 0, 0, 2, 1, 0, 0, 0, 0, 0, 0];

// The reaction to a message.
fn answer(
    rt: &(impl AllocGlobal + Abort),
    kind_version: KindVersion,
    state: Option<&State>,
    entry: u16,
    words: &[u64],
) -> Reaction {
    let reaction = react(rt.alloc(), kind_version, ME, state, entry, words).expect(rt, "memory");
    reaction.expect(rt, "a reaction")
}

// The children of the tree are constructed with depth 1.
fn are_children(rt: &impl Abort, sends: &[Outgoing]) {
    let [first, second] = sends else {
        panic!(rt; "not two messages");
    };
    assert_eq!(rt; first.to, Elem { array: 2, index: 7 });
    assert_eq!(rt; second.to, Elem { array: 2, index: 8 });
    assert_eq!(rt; second.words.as_slice(), [1u64].as_slice());
}

#[test]
fn tree_is_constructed_with_its_children(rt: HostRuntime) {
    let made = answer(&rt, KindVersion::Tree, None, CONSTRUCT, &[2]);
    are_children(&rt, made.sends.as_slice());
}

// An account of 10 is asked to pay this amount, and has this reply.
fn pays(rt: &(impl AllocGlobal + Abort), amount: u64, reply: u64) -> Reaction {
    let account = State::Account { balance: 10 };
    let paid = answer(rt, KindVersion::Account, Some(&account), 0, &[9, amount]);
    assert_eq!(rt; paid.reply.as_slice(), [reply].as_slice());
    paid
}

#[test]
fn account_pays_what_it_has(rt: HostRuntime) {
    let paid = pays(&rt, 10, 1);
    assert!(rt; matches!(paid.state, Some(State::Account { balance: 0 })));
    pays(&rt, 11, 0);
}

// An object becomes this by a message with this word, and has this reply.
fn makes(
    rt: &(impl AllocGlobal + Abort),
    kind_version: KindVersion,
    state: Option<&State>,
    entry: u16,
    word: u64,
    wanted: &str,
) {
    let made = answer(rt, kind_version, state, entry, &[word]);
    let state = &made.state;
    let reply = made.reply.as_slice();
    let text = format!(in rt.alloc(); "{state:?} {reply:?}").expect(rt, "memory");
    assert_eq!(rt; text.as_str(), wanted);
}

// A counter of version 2 takes, down to 0, and tells its peak, which only a sum above it changes.
// One of version 1 has neither entry.
#[test]
fn counters_react_by_their_version(rt: HostRuntime) {
    let new = "Some(Counter { count: 5, peak: 5 }) []";
    makes(&rt, KindVersion::Counter, None, CONSTRUCT, 5, new);
    let counter = State::Counter { count: 8, peak: 20 };
    for (entry, word, wanted) in [
        (0, 1, "Some(Counter { count: 9, peak: 20 }) [9]"),
        (0, 12, "Some(Counter { count: 20, peak: 20 }) [20]"),
        (0, 13, "Some(Counter { count: 21, peak: 21 }) [21]"),
        (1, 3, "Some(Counter { count: 8, peak: 20 }) [8]"),
        (2, 3, "Some(Counter { count: 5, peak: 20 }) [5]"),
        (2, 9, "Some(Counter { count: 0, peak: 20 }) [0]"),
        (3, 3, "Some(Counter { count: 8, peak: 20 }) [20]"),
        (4, 3, "Some(Counter { count: 8, peak: 20 }) []"),
    ] {
        makes(
            &rt,
            KindVersion::Counter,
            Some(&counter),
            entry,
            word,
            wanted,
        );
    }
    let new = "Some(FirstCounter { count: 5 }) []";
    makes(&rt, KindVersion::FirstCounter, None, CONSTRUCT, 5, new);
    let first = State::FirstCounter { count: 8 };
    for (entry, wanted) in [
        (0, "Some(FirstCounter { count: 11 }) [11]"),
        (1, "Some(FirstCounter { count: 8 }) [8]"),
        (2, "Some(FirstCounter { count: 8 }) []"),
        (3, "Some(FirstCounter { count: 8 }) []"),
    ] {
        makes(
            &rt,
            KindVersion::FirstCounter,
            Some(&first),
            entry,
            3,
            wanted,
        );
    }
}

#[test]
fn absent_elements_do_not_react(rt: HostRuntime) {
    let reaction = react(rt.alloc(), KindVersion::Ring, ME, None, 0, &[1]).expect(&rt, "memory");
    assert!(rt; reaction.is_none());
}

// A tape with the two items as it is packed.
fn packed_tape(rt: &(impl AllocGlobal + Abort)) -> Vec<u8> {
    let items = Words::from_slice(rt.alloc(), &ITEMS).expect(rt, "memory");
    pack_state(rt.alloc(), &State::Tape { items }).expect(rt, "memory")
}

// The bytes are those of the tape.
fn are_tape(rt: &impl Abort, bytes: &[u8]) {
    assert_eq!(rt; bytes, TAPE.as_slice());
}

// The object is the tape.
fn is_tape(rt: &impl Abort, read: &State) {
    assert!(rt; matches!(read, State::Tape { items } if items.as_slice() == ITEMS.as_slice()));
}

#[test]
fn tapes_are_packed_and_read(rt: HostRuntime) {
    are_tape(&rt, &packed_tape(&rt));
    let read = read_state(rt.alloc(), KindVersion::Tape, &TAPE);
    is_tape(&rt, &read.expect(&rt, "a tape"));
    let short = read_state(rt.alloc(), KindVersion::Tape, &TAPE[..19]);
    assert!(rt; matches!(short, Err(PupFault::Short)));
}

// The kind has this number.
fn is_kind(rt: &impl Abort, kind: Kind, number: u16) {
    assert_eq!(rt; kind.number(), number);
    assert_eq!(rt; Kind::of_number(number), Some(kind));
}

#[test]
fn kinds_have_their_numbers(rt: HostRuntime) {
    let mut number = 1;
    for kind in Kind::ALL {
        is_kind(&rt, kind, number);
        number = number.saturating_add(1);
    }
    assert_eq!(rt; number, 7);
    assert_eq!(rt; Kind::of_number(0), None);
    assert_eq!(rt; Kind::of_number(7), None);
}

#[test]
fn kinds_have_their_versions(rt: HostRuntime) {
    for (number, version, wanted) in [
        (1, 0, None),
        (1, 1, Some(KindVersion::FirstCounter)),
        (1, 2, Some(KindVersion::Counter)),
        (1, 3, None),
        (2, 0, None),
        (2, 1, Some(KindVersion::Ring)),
        (2, 2, None),
        (2, 3, None),
    ] {
        assert_eq!(rt; KindVersion::of_version(number, version), wanted);
    }
}

// The manifest of these arrays, if they make one.
fn manifest_of(rt: &(impl AllocGlobal + Abort), pairs: &[(u16, u16)]) -> Option<Manifest> {
    Manifest::of(rt.alloc(), pairs).expect(rt, "memory")
}

// Array 9 has tapes, array 0 counters, and there is no array 1.
fn has_two_arrays(rt: &impl Abort, manifest: &Manifest) {
    for (array, kind_version) in [
        (9, Some(KindVersion::Tape)),
        (0, Some(KindVersion::Counter)),
        (1, None),
    ] {
        assert_eq!(rt; manifest.kind_version_of(array), kind_version);
    }
}

#[test]
fn manifests_have_distinct_arrays(rt: HostRuntime) {
    let manifest = manifest_of(&rt, &[(9, 6), (0, 1)]);
    has_two_arrays(&rt, &manifest.expect(&rt, "a manifest"));
    for pairs in [[].as_slice(), &[(0, 0)], &[(0, 7)], &[(0, 1), (0, 2)]] {
        assert!(rt; manifest_of(&rt, pairs).is_none());
    }
}

// The value is printed like this.
fn is_printed<T: Display>(rt: &(impl AllocGlobal + Abort), value: &T, wanted: &str) {
    let text = format!(in rt.alloc(); "{value}").expect(rt, "memory");
    assert_eq!(rt; text.as_str(), wanted);
}

// The refusal has this number, and is printed like this.
fn is_refusal(rt: &(impl AllocGlobal + Abort), refusal: Refusal, number: u8, wanted: &str) {
    assert_eq!(rt; refusal.number(), number);
    is_printed(rt, &refusal, wanted);
}

#[test]
fn ids_and_refusals_are_printed(rt: HostRuntime) {
    let client = MsgId {
        origin: Origin::Client(7),
        number: 2,
    };
    is_printed(&rt, &client, "c7.2");
    let element = MsgId {
        origin: Origin::Element(ME),
        number: 4,
    };
    is_printed(&rt, &element, "e2.3.4");
    let (half, offset) = (Half::Zero, 49);
    let count = 1;
    let kind = Kind::Counter;
    is_refusal(&rt, Refusal::OutOfTurn(2), 5, "OutOfTurn 2");
    is_refusal(&rt, Refusal::Elsewhere(1), 10, "Elsewhere 1");
    is_refusal(&rt, Refusal::NoBlank(Kind::Tree), 11, "NoBlank 5");
    is_refusal(&rt, Refusal::Damaged { half, offset }, 14, "Damaged 0 49");
    is_refusal(
        &rt,
        Refusal::BlanksWanted { kind, count },
        16,
        "BlanksWanted 1 1",
    );
    is_refusal(&rt, Refusal::PassOut, 19, "PassOut");
    is_refusal(&rt, Refusal::Strayed, 22, "Strayed");
}

// A client that made eight requests. The first and the third one have their replies.
fn full_row(rt: &(impl AllocGlobal + Abort)) -> ClientRow {
    let reply = Words::from_slice(rt.alloc(), &[6]).expect(rt, "memory");
    let mut row = ClientRow::new();
    for number in 1..=8 {
        row.accept(number);
    }
    row.answer(3, reply);
    assert!(rt; !row.has_place());
    row.answer(1, Words::new(Vec::new(rt.alloc())));
    assert!(rt; row.has_place());
    row
}

// That client's row after one more request.
fn moved_row(rt: &(impl AllocGlobal + Abort), row: &ClientRow) -> ClientRow {
    let mut moved = row.copy(rt.alloc()).expect(rt, "memory");
    moved.accept(9);
    assert!(rt; !moved.has_place());
    moved
}

// The client is told this about a request.
fn is_told(rt: &(impl AllocGlobal + Abort), row: &ClientRow, number: u64, wanted: &str) {
    let told = row.told(rt.alloc(), number).expect(rt, "memory");
    is_printed(rt, &told, wanted);
}

#[test]
fn clients_are_told_by_their_rows(rt: HostRuntime) {
    let new = ClientRow::new();
    is_told(&rt, &new, 1, "told unknown");
    is_told(&rt, &new, 0, "told past");
    let full = full_row(&rt);
    is_told(&rt, &full, 0, "told past");
    is_told(&rt, &full, 1, "told replied");
    is_told(&rt, &full, 2, "told accepted");
    is_told(&rt, &full, 3, "told replied 6");
    is_told(&rt, &full, 8, "told accepted");
    is_told(&rt, &full, 9, "told unknown");
    let moved = moved_row(&rt, &full);
    is_told(&rt, &moved, 1, "told past");
    is_told(&rt, &moved, 2, "told accepted");
    is_told(&rt, &moved, 3, "told replied 6");
    is_told(&rt, &moved, 9, "told accepted");
    is_told(&rt, &moved, 10, "told unknown");
}
