// The present world against the plain one, event by event, on random histories.

ghost use Rattle.std.specs.Prelude.{◌≡◌, ◌<◌, OnOk, true};
ghost use Rattle.charmlet_state_tests.specs.Pair.{IsPair};

use charmlet_chare::Output;
use charmlet_model::{
    CONSTRUCT, Elem, Event, Manifest, Message, MsgId, Reaction, Told, Window, Words,
};
use charmlet_ready_queue::Ticks;
use charmlet_reference::PlainWorld;
use charmlet_world::{PendingMessage, PresentWorld};
use rand_core::utils::NextWord;
use rand_pcg::Pcg32;
use std::alloc::{AllocError, AllocGlobal, Global};
use std::marker::Brand;
use std::process::Abort;
use std::sync::ledger::{Blank, Ledger};

const PROCESSORS: u16 = 4;

const CLIENTS: u32 = 6;

// Two elements of each kind, and one of an array that isn't there.
const ELEMENTS: [Elem; 13] = [
    Elem { array: 0, index: 0 },
    Elem { array: 0, index: 1 },
    Elem { array: 1, index: 0 },
    Elem { array: 1, index: 1 },
    Elem { array: 2, index: 0 },
    Elem { array: 2, index: 1 },
    Elem { array: 3, index: 0 },
    Elem { array: 3, index: 1 },
    Elem { array: 4, index: 0 },
    Elem { array: 4, index: 1 },
    Elem { array: 5, index: 0 },
    Elem { array: 5, index: 1 },
    Elem { array: 9, index: 0 },
];

// A client's request to an element.
#[derive(Clone, Copy)]
struct Request<'a> {
    client: u32,
    number: u64,
    to: Elem,
    entry: u16,
    words: &'a [u64],
}

// Takes the request in both worlds, if it can be accepted.
fn accept(
    alloc: Global,
    world: &mut PresentWorld,
    plain: &mut PlainWorld,
    request: &Request<'_>,
) -> Result<bool, AllocError>
    requires { IsPair world.old plain.old }
    ensures { OnOk result (IsPair world.new plain.new) }
{
    let Request {
        client,
        number,
        to,
        entry,
        words,
    } = *request;
    let event = Event::Accept {
        client,
        number,
        to,
        entry,
        words: Words::from_slice(alloc, words)?,
    };
    if !plain.can(&event) {
        return Ok(false);
    }
    let words = Words::from_slice(alloc, words)?;
    world.accept(client, number, to, entry, words)?;
    plain.after(&event)?;
    Ok(true)
}

// Delivers the pending message in both worlds, if it can be delivered and its receiver reacts.
fn deliver(world: &mut PresentWorld, plain: &mut PlainWorld, id: MsgId) -> Result<bool, AllocError>
    requires { IsPair world.old plain.old }
    ensures { OnOk result (IsPair world.new plain.new) }
{
    let event = Event::Deliver(id);
    if !plain.can(&event) {
        return Ok(false);
    }
    let Some(message) = plain.message(id) else {
        return Ok(false);
    };
    let Some(reaction) = plain.reaction(message)? else {
        return Ok(false);
    };
    let Reaction {
        state,
        sends,
        reply,
    } = reaction;
    let output = Output {
        sends,
        reply,
        is_destroyed: state.is_none(),
    };
    let slot = world.assign(id)?;
    world.commit(slot, id, output);
    plain.after(&event)?;
    Ok(true)
}

// ---- what both show

// A pending message is this one.
fn is_message(rt: &impl Abort, id: MsgId, pending_message: &PendingMessage, message: &Message) {
    assert_eq!(rt; id, message.id);
    assert_eq!(rt; pending_message.to, message.to);
    assert_eq!(rt; pending_message.entry, message.entry);
    assert_eq!(rt; pending_message.words.as_slice(), message.words.as_slice());
}

// The oldest message that can be delivered.
fn oldest(plain: &PlainWorld) -> Option<MsgId> {
    for message in plain.pending() {
        if plain.can_receive(message) {
            return Some(message.id);
        }
    }
    None
}

// The oldest message on a processor that can be delivered.
fn oldest_there(world: &PresentWorld, plain: &PlainWorld, processor: u16) -> Option<MsgId> {
    for message in plain.pending() {
        let place = world.place_or_home(message.to);
        if place == processor && plain.can_receive(message) {
            return Some(message.id);
        }
    }
    None
}

// The oldest message on a processor, as the present world finds it, with a count of its own.
fn oldest_on<L: Ledger>(world: &PresentWorld, processor: u16, blank: Blank) -> Option<MsgId>
    requires name { blank.name ≡ L.name }
    requires parts { blank.parts ≡ L.parts }
    requires some { 0 < blank.parts }
{
    let mut ticks = Ticks::<L>::new(blank);
    world.oldest_on(processor, &mut ticks)
}

// The index finds the same messages as a search through all of them.
fn found_are_same(rt: &impl Abort, world: &PresentWorld, plain: &PlainWorld) {
    let first = oldest(plain);
    assert_eq!(rt; world.oldest(), first);
    assert_eq!(rt; world.quiet(), first.is_none());
    if let Some((processor, id)) = world.next() {
        assert_eq!(rt; Some(id), first);
        assert_eq!(rt; Some(id), oldest_there(world, plain, processor));
    }
    for processor in 0..PROCESSORS + 1 {
        let here = oldest_on::<Brand>(world, processor, Blank::new(1));
        assert_eq!(rt; here, oldest_there(world, plain, processor));
    }
}

fn messages_are_same(rt: &impl Abort, world: &PresentWorld, plain: &PlainWorld) {
    assert_eq!(rt; world.pending_count(), plain.pending().len());
    let mut messages = plain.pending().iter();
    for (id, pending_message) in world.messages() {
        let message = messages.next().expect(rt, "a message of the plain world");
        is_message(rt, id, pending_message, message);
    }
    assert!(rt; messages.next().is_none());
    found_are_same(rt, world, plain);
}

fn element_is_same(rt: &impl Abort, world: &PresentWorld, plain: &PlainWorld, elem: Elem) {
    let (sent, received) = plain.counts(elem);
    let element = world.element(elem);
    assert_eq!(rt; element.sent, sent);
    assert_eq!(rt; element.received, received);
    assert_eq!(rt; element.place.is_some(), plain.state(elem).is_some());
}

fn elements_are_same(rt: &impl Abort, world: &PresentWorld, plain: &PlainWorld) {
    for elem in ELEMENTS {
        element_is_same(rt, world, plain, elem);
    }
}

// The reply at this place of a window.
fn reply_at(window: &Window, place: usize) -> Option<&[u64]> {
    window.get(place).map(|words: &Words| words.as_slice())
}

fn windows_are_same(rt: &impl Abort, window: &Window, plain: &Window) {
    assert_eq!(rt; window.len(), plain.len());
    for place in 0..8 {
        assert_eq!(rt; reply_at(window, place), reply_at(plain, place));
    }
}

fn client_is_same(rt: &impl Abort, world: &PresentWorld, plain: &PlainWorld, client: u32) {
    let Some(expected) = plain.client(client) else {
        assert!(rt; world.client(client).is_none());
        return;
    };
    let present = world.client(client).expect(rt, "a row").present();
    assert_eq!(rt; present.last, expected.last);
    windows_are_same(rt, &present.window, &expected.window);
}

fn clients_are_same(rt: &impl Abort, world: &PresentWorld, plain: &PlainWorld) {
    for client in 0..CLIENTS {
        client_is_same(rt, world, plain, client);
    }
}

fn worlds_are_same(rt: &impl Abort, world: &PresentWorld, plain: &PlainWorld) {
    messages_are_same(rt, world, plain);
    elements_are_same(rt, world, plain);
    clients_are_same(rt, world, plain);
}

// ---- random histories

fn some_elem(rng: &mut Pcg32) -> Elem {
    let place = rng.next_word() as usize % ELEMENTS.len();
    ELEMENTS[place]
}

// Mostly the client's next number.
fn some_number(rng: &mut Pcg32, plain: &PlainWorld, client: u32) -> u64 {
    let last = match plain.client(client) {
        Some(row) => row.last,
        None => 0,
    };
    if rng.next_word() % 10 == 0 {
        last
    } else {
        last.saturating_add(1)
    }
}

fn some_entry(rng: &mut Pcg32) -> u16 {
    match rng.next_word() % 4 {
        0 => 0,
        1 => 1,
        2 => 2,
        _ => CONSTRUCT,
    }
}

// A request of some client in both worlds.
fn some_request(
    alloc: Global,
    rng: &mut Pcg32,
    world: &mut PresentWorld,
    plain: &mut PlainWorld,
) -> Result<bool, AllocError>
    requires { IsPair world.old plain.old }
    ensures { OnOk result (IsPair world.new plain.new) }
{
    let client = rng.next_word() % CLIENTS;
    let number = some_number(rng, plain, client);
    let first = u64::from(rng.next_word() % 4);
    let second = u64::from(rng.next_word() % 4);
    let request = Request {
        client,
        number,
        to: some_elem(rng),
        entry: some_entry(rng),
        words: &[first, second],
    };
    accept(alloc, world, plain, &request)
}

// The oldest message that can be delivered, or any other.
fn some_message(rng: &mut Pcg32, world: &PresentWorld, plain: &PlainWorld) -> Option<MsgId> {
    let pending = plain.pending();
    if rng.next_word() % 2 == 0 || pending.is_empty() {
        return world.oldest();
    }
    let place = rng.next_word() as usize % pending.len();
    Some(pending[place].id)
}

// An element that is there goes to another processor, or stays.
fn some_move(
    rng: &mut Pcg32,
    world: &mut PresentWorld,
    plain: &PlainWorld,
) -> Result<bool, AllocError>
    requires { IsPair world.old plain.now }
    ensures { OnOk result (IsPair world.new plain.now) }
{
    let elem = some_elem(rng);
    let processor = (rng.next_word() % 4) as u16;
    if world.element(elem).place.is_none() || processor >= world.processors() {
        return Ok(false);
    }
    world.relocate(elem, processor)?;
    Ok(true)
}

// One event in both worlds, if it can happen.
fn some_event(
    alloc: Global,
    rng: &mut Pcg32,
    world: &mut PresentWorld,
    plain: &mut PlainWorld,
) -> Result<bool, AllocError>
    requires { IsPair world.old plain.old }
    ensures { OnOk result (IsPair world.new plain.new) }
{
    if rng.next_word() % 5 < 2 {
        return some_request(alloc, rng, world, plain);
    }
    if rng.next_word() % 5 == 0 {
        return some_move(rng, world, plain);
    }
    match some_message(rng, world, plain) {
        Some(id) => deliver(world, plain, id),
        None => Ok(false),
    }
}

// Both worlds, in which nothing has happened, with an array of each kind.
fn both(rt: &(impl AllocGlobal + Abort)) -> (PresentWorld, PlainWorld)
    ensures { IsPair result.0 result.1 }
{
    let arrays = [(0, 1), (1, 2), (2, 3), (3, 4), (4, 5), (5, 6)];
    let manifest = Manifest::of(rt.alloc(), &arrays).expect(rt, "memory");
    let manifest = manifest.expect(rt, "a manifest");
    let same = Manifest::of(rt.alloc(), &arrays).expect(rt, "memory");
    let same = same.expect(rt, "a manifest");
    let world = PresentWorld::new(rt.alloc(), manifest, PROCESSORS);
    (world, PlainWorld::new(rt.alloc(), same))
}

// Tries `tries` events of a history, and returns how many happened.
fn history(rt: &(impl AllocGlobal + Abort), seed: u64, tries: u32) -> u64 {
    let mut rng = Pcg32::new(seed, 54);
    let (mut world, mut plain) = both(rt);
    let mut happened: u64 = 0;
    for _ in 0..tries {
        let event = some_event(rt.alloc(), &mut rng, &mut world, &mut plain);
        if event.expect(rt, "memory") {
            happened = happened.saturating_add(1);
        }
        worlds_are_same(rt, &world, &plain);
    }
    happened
}

#[test]
fn random_histories_give_the_plain_world(rt: HostRuntime) {
    let mut happened: u64 = 0;
    for seed in 0..300 {
        happened = happened.saturating_add(history(&rt, seed, 40));
    }
    assert!(rt; happened > 4000, "{happened}");
}

#[test]
fn a_long_history_gives_the_plain_world(rt: HostRuntime) {
    let happened = history(&rt, 4711, 2000);
    assert!(rt; happened > 300, "{happened}");
}

// ---- what clients are told, and room

const ME: Elem = Elem { array: 0, index: 0 };

// What client 2 is told of its first request.
fn told(rt: &(impl AllocGlobal + Abort), world: &PresentWorld) -> Told {
    world.told(rt.alloc(), 2, 1).expect(rt, "memory")
}

// A counter is constructed by client 2: what the client is told changes with a flush alone.
#[test]
fn clients_are_told_what_was_flushed(rt: HostRuntime) {
    let (mut world, mut plain) = both(&rt);
    let request = Request {
        client: 2,
        number: 1,
        to: ME,
        entry: CONSTRUCT,
        words: &[5],
    };
    let accepted = accept(rt.alloc(), &mut world, &mut plain, &request);
    assert!(rt; accepted.expect(&rt, "memory"));
    assert!(rt; matches!(told(&rt, &world), Told::Unknown));
    world.flush_client(2);
    assert!(rt; matches!(told(&rt, &world), Told::Accepted));
}
