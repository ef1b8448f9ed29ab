ghost use Rattle.std.specs.Prelude.{◌≤◌, All, length};
ghost use Rattle.charmlet_record.specs.Limits.{AreFewWords, IsShort, IsShortSend};

use crate::tests::format::{is_count, is_text};
use charmlet_model::{Effect, Elem, Logged, Manifest, MsgId, Origin, Outgoing, Sends, Words};
use charmlet_record::{Reader, append_event, event_size, read_event};
use rand_core::utils::NextWord;
use rand_pcg::Pcg32;
use std::alloc::AllocGlobal;
use std::process::Abort;

// Arrays 0 to 6, of all kinds.
const ARRAYS: [(u16, u16); 7] = [(0, 1), (1, 2), (2, 3), (3, 4), (4, 5), (5, 6), (6, 1)];

pub fn some_number(rng: &mut Pcg32) -> u64 {
    let high = u64::from(rng.next_word());
    let low = u64::from(rng.next_word());
    (high << 32) | low
}

// An element of one of seven arrays.
pub fn some_elem(rng: &mut Pcg32) -> Elem {
    let array = (rng.next_word() % 7) as u16;
    let index = some_number(rng);
    Elem { array, index }
}

fn some_id(rng: &mut Pcg32) -> MsgId {
    let origin = if rng.next_word() % 2 == 0 {
        Origin::Client(rng.next_word())
    } else {
        Origin::Element(some_elem(rng))
    };
    let number = some_number(rng) | 1;
    MsgId { origin, number }
}

// None to five words.
pub fn some_words(rt: &(impl AllocGlobal + Abort), rng: &mut Pcg32) -> Words
    ensures { AreFewWords result }
{
    let words = [
        some_number(rng),
        some_number(rng),
        some_number(rng),
        some_number(rng),
        some_number(rng),
    ];
    let count = (rng.next_word() % 6) as usize;
    Words::from_slice(rt.alloc(), &words[..count]).expect(rt, "memory")
}

fn some_send(rt: &(impl AllocGlobal + Abort), rng: &mut Pcg32) -> Outgoing
    ensures { IsShortSend result }
{
    let to = some_elem(rng);
    let entry = (rng.next_word() % 65536) as u16;
    let words = some_words(rt, rng);
    Outgoing { to, entry, words }
}

// None to three sends.
fn some_sends(rt: &(impl AllocGlobal + Abort), rng: &mut Pcg32) -> Sends
    ensures few { length result ≤ 16 }
    ensures short { All IsShortSend result }
{
    let mut sends = Vec::new(rt.alloc());
    let count = rng.next_word() % 4;
    for _ in 0..count {
        let send = some_send(rt, rng);
        sends.push(send).expect(rt, "memory");
    }
    Sends::new(sends)
}

pub fn some_request(rt: &(impl AllocGlobal + Abort), rng: &mut Pcg32) -> Logged
    ensures { IsShort result }
{
    let client = rng.next_word();
    let number = some_number(rng);
    let to = some_elem(rng);
    let entry = (rng.next_word() % 65536) as u16;
    let words = some_words(rt, rng);
    Logged::Accept {
        client,
        number,
        to,
        entry,
        words,
    }
}

fn some_effect(rng: &mut Pcg32) -> Effect {
    match rng.next_word() % 3 {
        0 => Effect::Stayed,
        1 => Effect::Constructed,
        _ => Effect::Destroyed,
    }
}

pub fn some_delivery(rt: &(impl AllocGlobal + Abort), rng: &mut Pcg32) -> Logged
    ensures { IsShort result }
{
    let id = some_id(rng);
    let received = some_number(rng);
    let effect = some_effect(rng);
    let sends = some_sends(rt, rng);
    Logged::Deliver {
        id,
        received,
        effect,
        sends,
    }
}

fn some_event(rt: &(impl AllocGlobal + Abort), rng: &mut Pcg32) -> Logged
    ensures { IsShort result }
{
    if rng.next_word() % 2 == 0 {
        some_request(rt, rng)
    } else {
        some_delivery(rt, rng)
    }
}

// The event as it is written, and one byte more.
fn bytes_of(rt: &(impl AllocGlobal + Abort), event: &Logged) -> Vec<u8>
    requires { IsShort event.now }
{
    let mut bytes = Vec::new(rt.alloc());
    append_event(&mut bytes, event).expect(rt, "memory");
    is_count(rt, bytes.len(), event_size(event));
    bytes.push(7).expect(rt, "memory");
    bytes
}

// The event that the bytes begin with, one byte before their end.
fn event_in(rt: &(impl AllocGlobal + Abort), manifest: &Manifest, bytes: &[u8]) -> Logged {
    let mut reader = Reader::new(bytes);
    let event = read_event(&mut reader, rt.alloc(), manifest).expect(rt, "an event");
    is_count(rt, reader.left(), 1);
    event
}

// The event in words.
fn words_of(rt: &(impl AllocGlobal + Abort), event: &Logged) -> String {
    format!(in rt.alloc(); "{event:?}").expect(rt, "memory")
}

// The event is read back as it was written.
fn is_read_back(rt: &(impl AllocGlobal + Abort), manifest: &Manifest, event: &Logged)
    requires { IsShort event.now }
{
    let bytes = bytes_of(rt, event);
    let read = event_in(rt, manifest, &bytes);
    is_text(rt, &words_of(rt, &read), &words_of(rt, event));
}

#[test]
fn random_events_are_read_back(rt: HostRuntime) {
    let manifest = Manifest::of(rt.alloc(), &ARRAYS).expect(&rt, "memory");
    let manifest = manifest.expect(&rt, "a manifest");
    let mut rng = Pcg32::new(42, 54);
    for _ in 0..200 {
        let event = some_event(&rt, &mut rng);
        is_read_back(&rt, &manifest, &event);
    }
}
