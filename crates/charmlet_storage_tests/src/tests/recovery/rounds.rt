// Faults of each round, planted in values: at one place, at two places of a round, and in different
// rounds.

use charmlet_model::{
    CONSTRUCT, CatchUpEntry, Effect, Elem, Event, Logged, MAX_EVENTS, Manifest, Message, MsgId,
    Origin, Outgoing, Sends, Words,
};
use charmlet_reference::{Meaning, PlainWorld, replay};
use std::alloc::{AllocError, AllocGlobal, Global};
use std::process::Abort;

const COUNTER: Elem = Elem { array: 0, index: 0 };

const TREE: Elem = Elem { array: 1, index: 0 };

const LEAF: Elem = Elem { array: 1, index: 1 };

const SHRUB: Elem = Elem { array: 1, index: 5 };

// Counters in array 0, and trees in array 1.
fn manifest(rt: &(impl AllocGlobal + Abort)) -> Manifest {
    let manifest = Manifest::of(rt.alloc(), &[(0, 1), (1, 5)]).expect(rt, "memory");
    manifest.expect(rt, "a manifest")
}

fn client_id(client: u32, number: u64) -> MsgId {
    let origin = Origin::Client(client);
    MsgId { origin, number }
}

// The result of the image and the log, as a text.
fn verdict(
    alloc: Global,
    image: PlainWorld,
    caught_up: &[CatchUpEntry],
    before: u64,
    log: &[Logged],
) -> Result<String, AllocError> {
    if before > MAX_EVENTS {
        return format!(in alloc; "too many events");
    }
    match replay(alloc, image, caught_up, before, log)? {
        Meaning::Faulty(place) => format!(in alloc; "{place:?}"),
        Meaning::Whole(_, events) => format!(in alloc; "whole {events}"),
    }
}

// The image and the log have this result.
pub fn assert_verdict(
    rt: &(impl AllocGlobal + Abort),
    image: PlainWorld,
    caught_up: &[CatchUpEntry],
    before: u64,
    log: &[Logged],
    wanted: &str,
) {
    let text = verdict(rt.alloc(), image, caught_up, before, log).expect(rt, "memory");
    assert_eq!(rt; text.as_str(), wanted);
}

// A client's first request.
fn first_request(
    alloc: Global,
    client: u32,
    to: Elem,
    entry: u16,
    word: u64,
) -> Result<Event, AllocError> {
    let words = Words::from_slice(alloc, &[word])?;
    Ok(Event::Accept {
        client,
        number: 1,
        to,
        entry,
        words,
    })
}

// A client constructs an element with a word.
fn construct(
    rt: &(impl AllocGlobal + Abort),
    world: &mut PlainWorld,
    client: u32,
    to: Elem,
    word: u64,
) {
    let request = first_request(rt.alloc(), client, to, CONSTRUCT, word).expect(rt, "memory");
    assert_eq!(rt; world.after(&request), Ok(true));
    let delivery = Event::Deliver(client_id(client, 1));
    assert_eq!(rt; world.after(&delivery), Ok(true));
}

// A counter with 5, and a tree whose two children are pending: after four events.
fn planted(rt: &(impl AllocGlobal + Abort)) -> PlainWorld {
    let mut world = PlainWorld::new(rt.alloc(), manifest(rt));
    construct(rt, &mut world, 7, COUNTER, 5);
    construct(rt, &mut world, 8, TREE, 1);
    world
}

// ---- the first round

// The count and the effect of each of three deliveries.
type Deliveries = [(u64, Effect); 3];

const BORN: (u64, Effect) = (1, Effect::Constructed);

const GONE: (u64, Effect) = (2, Effect::Destroyed);

const ADDED: (u64, Effect) = (2, Effect::Stayed);

fn delivery(
    alloc: Global,
    id: MsgId,
    to: Elem,
    entry: u16,
    received: u64,
    effect: Effect,
) -> Result<CatchUpEntry, AllocError> {
    let words = Words::from_slice(alloc, &[0])?;
    let message = Message {
        id,
        to,
        entry,
        words,
    };
    Ok(CatchUpEntry {
        message,
        received,
        effect,
    })
}

// A leaf is constructed, and destroyed, and the counter is added to.
fn deliveries(alloc: Global, written: Deliveries) -> Result<Vec<CatchUpEntry>, AllocError> {
    let [first, second, third] = written;
    let origin = Origin::Element(TREE);
    let child = MsgId { origin, number: 1 };
    let mut list = Vec::new(alloc);
    for (id, to, entry, (received, effect)) in [
        (child, LEAF, CONSTRUCT, first),
        (client_id(9, 1), LEAF, 0, second),
        (client_id(7, 2), COUNTER, 0, third),
    ] {
        list.push(delivery(alloc, id, to, entry, received, effect)?)?;
    }
    Ok(list)
}

fn catches_up(rt: &(impl AllocGlobal + Abort), written: Deliveries, wanted: &str) {
    let list = deliveries(rt.alloc(), written).expect(rt, "memory");
    assert_verdict(rt, planted(rt), &list, 4, &[], wanted);
}

#[test]
fn faults_in_the_catch_up_list(rt: HostRuntime) {
    catches_up(&rt, [BORN, GONE, ADDED], "whole 4");
    catches_up(&rt, [(2, Effect::Constructed), GONE, ADDED], "InCatchUp(0)");
    catches_up(&rt, [(1, Effect::Stayed), GONE, ADDED], "InCatchUp(0)");
    catches_up(&rt, [(0, Effect::Stayed), GONE, ADDED], "InCatchUp(1)");
    catches_up(&rt, [BORN, (3, Effect::Destroyed), ADDED], "InCatchUp(1)");
    catches_up(&rt, [BORN, (2, Effect::Stayed), ADDED], "InCatchUp(1)");
    catches_up(&rt, [BORN, (1, Effect::Stayed), ADDED], "whole 4");
    catches_up(&rt, [BORN, GONE, (3, Effect::Stayed)], "InCatchUp(2)");
    catches_up(&rt, [BORN, GONE, (2, Effect::Destroyed)], "InCatchUp(2)");
    catches_up(&rt, [BORN, GONE, (1, Effect::Destroyed)], "whole 4");
    let two = [BORN, (9, Effect::Destroyed), (9, Effect::Stayed)];
    catches_up(&rt, two, "InCatchUp(1)");
}

// ---- the second round

fn pending_message(alloc: Global, id: MsgId) -> Result<Message, AllocError> {
    Ok(Message {
        id,
        to: LEAF,
        entry: CONSTRUCT,
        words: Words::from_slice(alloc, &[0])?,
    })
}

// Two pending messages.
fn two_pending(alloc: Global, one: MsgId, other: MsgId) -> Result<Vec<Message>, AllocError> {
    let mut pending = Vec::new(alloc);
    for id in [one, other] {
        pending.push(pending_message(alloc, id)?)?;
    }
    Ok(pending)
}

// Nothing but two pending messages.
fn waiting(rt: &(impl AllocGlobal + Abort), one: MsgId, other: MsgId) -> PlainWorld {
    let alloc = rt.alloc();
    let pending = two_pending(alloc, one, other).expect(rt, "memory");
    let records = Vec::new(alloc);
    let clients = Vec::new(alloc);
    PlainWorld::of(alloc, manifest(rt), records, pending, clients).expect(rt, "memory")
}

// The catch-up list constructs a tree of depth 1, which then sends two messages.
fn tree_is_caught_up(alloc: Global) -> Result<Vec<CatchUpEntry>, AllocError> {
    let message = Message {
        id: client_id(8, 1),
        to: TREE,
        entry: CONSTRUCT,
        words: Words::from_slice(alloc, &[1])?,
    };
    let caught_up = CatchUpEntry {
        message,
        received: 1,
        effect: Effect::Constructed,
    };
    let mut list = Vec::new(alloc);
    list.push(caught_up)?;
    Ok(list)
}

// The pending messages are those of the tree with these numbers.
fn tree_waits(rt: &(impl AllocGlobal + Abort), one: u64, other: u64) -> PlainWorld {
    let origin = Origin::Element(TREE);
    let first = MsgId {
        origin,
        number: one,
    };
    let second = MsgId {
        origin,
        number: other,
    };
    waiting(rt, first, second)
}

#[test]
fn faults_in_pending_messages(rt: HostRuntime) {
    let tree = tree_is_caught_up(rt.alloc()).expect(&rt, "memory");
    assert_verdict(&rt, tree_waits(&rt, 1, 2), &tree, 1, &[], "whole 1");
    assert_verdict(&rt, tree_waits(&rt, 1, 3), &tree, 1, &[], "InPending(1)");
    assert_verdict(&rt, tree_waits(&rt, 3, 1), &tree, 1, &[], "InPending(0)");
    assert_verdict(&rt, tree_waits(&rt, 3, 4), &tree, 1, &[], "InPending(0)");
    assert_verdict(&rt, tree_waits(&rt, 1, 2), &[], 1, &[], "InPending(0)");
    let image = waiting(&rt, client_id(7, 1), client_id(7, 2));
    assert_verdict(&rt, image, &[], 0, &[], "InPending(0)");
}

// ---- the third round

// The written number of a request, the count and effect of a delivery, and the second send of
// another one: the index of the receiver, the entry and the word.
#[derive(Clone, Copy)]
struct Written {
    number: u64,
    received: u64,
    effect: Effect,
    send: (u64, u16, u64),
}

const SEND: (u64, u16, u64) = (12, CONSTRUCT, 0);

const TRUE: Written = Written {
    number: 1,
    received: 2,
    effect: Effect::Stayed,
    send: SEND,
};

fn accepted(
    alloc: Global,
    client: u32,
    number: u64,
    to: Elem,
    entry: u16,
) -> Result<Logged, AllocError> {
    let words = Words::from_slice(alloc, &[1])?;
    Ok(Logged::Accept {
        client,
        number,
        to,
        entry,
        words,
    })
}

fn sent(alloc: Global, send: (u64, u16, u64)) -> Result<Outgoing, AllocError> {
    let (index, entry, word) = send;
    let to = Elem { array: 1, index };
    let words = Words::from_slice(alloc, &[word])?;
    Ok(Outgoing { to, entry, words })
}

// A shrub sends the constructions of its two children.
fn two_sends(alloc: Global, second: (u64, u16, u64)) -> Result<Sends, AllocError> {
    let mut sends = Vec::new(alloc);
    for send in [(11, CONSTRUCT, 0), second] {
        sends.push(sent(alloc, send)?)?;
    }
    Ok(Sends::new(sends))
}

// A shrub is constructed.
fn shrub_grows(alloc: Global, second: (u64, u16, u64)) -> Result<Logged, AllocError> {
    let sends = two_sends(alloc, second)?;
    Ok(Logged::Deliver {
        id: client_id(9, 2),
        received: 1,
        effect: Effect::Constructed,
        sends,
    })
}

// The counter is added to.
fn counter_adds(alloc: Global, received: u64, effect: Effect) -> Logged {
    Logged::Deliver {
        id: client_id(9, 1),
        received,
        effect,
        sends: Sends::new(Vec::new(alloc)),
    }
}

// Adds to a log that the counter is added to, and that a shrub grows.
fn write_log(alloc: Global, written: Written, log: &mut Vec<Logged>) -> Result<(), AllocError> {
    log.push(accepted(alloc, 9, written.number, COUNTER, 0)?)?;
    log.push(counter_adds(alloc, written.received, written.effect))?;
    log.push(accepted(alloc, 9, 2, SHRUB, CONSTRUCT)?)?;
    log.push(shrub_grows(alloc, written.send)?)?;
    Ok(())
}

// The log of that.
fn log_of(alloc: Global, written: Written) -> Result<Vec<Logged>, AllocError> {
    let mut log = Vec::new(alloc);
    write_log(alloc, written, &mut log)?;
    Ok(log)
}

fn happens(rt: &(impl AllocGlobal + Abort), before: u64, written: Written, wanted: &str) {
    let log = log_of(rt.alloc(), written).expect(rt, "memory");
    assert_verdict(rt, planted(rt), &[], before, &log, wanted);
}

// The request and its delivery are written like this.
fn adds(rt: &(impl AllocGlobal + Abort), number: u64, received: u64, effect: Effect, wanted: &str) {
    let written = Written {
        number,
        received,
        effect,
        send: SEND,
    };
    happens(rt, 4, written, wanted);
}

#[test]
fn faults_in_requests_and_deliveries(rt: HostRuntime) {
    adds(&rt, 1, 2, Effect::Stayed, "whole 8");
    adds(&rt, 0, 2, Effect::Stayed, "InEvents(0)");
    adds(&rt, 2, 2, Effect::Stayed, "InEvents(0)");
    adds(&rt, 1, 1, Effect::Stayed, "InEvents(1)");
    adds(&rt, 1, 3, Effect::Stayed, "InEvents(1)");
    adds(&rt, 1, 2, Effect::Constructed, "InEvents(1)");
    adds(&rt, 1, 2, Effect::Destroyed, "InEvents(1)");
    adds(&rt, 2, 3, Effect::Destroyed, "InEvents(0)");
}

// The count of the first delivery and the second send of the other one are written like this.
fn sends(rt: &(impl AllocGlobal + Abort), received: u64, send: (u64, u16, u64), wanted: &str) {
    let written = Written {
        number: 1,
        received,
        effect: Effect::Stayed,
        send,
    };
    happens(rt, 4, written, wanted);
}

#[test]
fn faults_in_sends(rt: HostRuntime) {
    sends(&rt, 2, (12, CONSTRUCT, 0), "whole 8");
    sends(&rt, 2, (11, CONSTRUCT, 0), "InEvents(3)");
    sends(&rt, 2, (12, 0, 0), "InEvents(3)");
    sends(&rt, 2, (12, CONSTRUCT, 1), "InEvents(3)");
    sends(&rt, 3, (12, CONSTRUCT, 1), "InEvents(1)");
}

#[test]
fn events_are_limited(rt: HostRuntime) {
    happens(&rt, MAX_EVENTS, TRUE, "InEvents(0)");
    happens(&rt, MAX_EVENTS - 1, TRUE, "InEvents(1)");
    happens(&rt, MAX_EVENTS - 3, TRUE, "InEvents(3)");
    happens(&rt, MAX_EVENTS - 4, TRUE, "whole 1099511627776");
}

// The image, these deliveries and a log with a wrong number have this result.
fn goes_wrong(
    rt: &(impl AllocGlobal + Abort),
    image: PlainWorld,
    caught_up: &[CatchUpEntry],
    wanted: &str,
) {
    let wrong = Written { number: 5, ..TRUE };
    let log = log_of(rt.alloc(), wrong).expect(rt, "memory");
    assert_verdict(rt, image, caught_up, 4, &log, wanted);
}

// The image, a log with a wrong number, and deliveries of which the last one is written like this
// have this result.
fn goes_wrong_after(rt: &(impl AllocGlobal + Abort), last: (u64, Effect), wanted: &str) {
    let list = deliveries(rt.alloc(), [BORN, GONE, last]).expect(rt, "memory");
    goes_wrong(rt, planted(rt), &list, wanted);
}

// The first round that has a fault answers it.
#[test]
fn faults_in_different_rounds(rt: HostRuntime) {
    goes_wrong_after(&rt, (9, Effect::Stayed), "InCatchUp(2)");
    goes_wrong_after(&rt, ADDED, "InEvents(0)");
    let image = waiting(&rt, client_id(7, 1), client_id(7, 2));
    goes_wrong(&rt, image, &[], "InPending(0)");
}
