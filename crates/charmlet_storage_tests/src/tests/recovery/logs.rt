// Random logs, compared with the fold of their events.

use super::rounds::assert_verdict;
use charmlet_model::{
    CONSTRUCT, CatchUpEntry, Effect, Elem, Event, Logged, MAX_EVENTS, Manifest, MsgId, Words,
};
use charmlet_reference::{Meaning, PlainWorld, replay};
use rand_core::utils::NextWord;
use rand_pcg::Pcg32;
use std::alloc::{AllocError, AllocGlobal, Global};
use std::process::Abort;

// A world with an array of each kind, in which nothing has happened.
fn empty_world(rt: &(impl AllocGlobal + Abort)) -> PlainWorld {
    let pairs = [(0, 1), (1, 2), (2, 3), (3, 4), (4, 5), (5, 6)];
    let manifest = Manifest::of(rt.alloc(), &pairs).expect(rt, "memory");
    PlainWorld::new(rt.alloc(), manifest.expect(rt, "a manifest"))
}

// A history: its events, and the record of each in a log, and of each delivery in a catch-up list.
#[derive(Drop)]
struct History {
    world: PlainWorld,
    events: Vec<Event>,
    log: Vec<Logged>,
    caught_up: Vec<CatchUpEntry>,
}

// A construction, or one of three entries.
fn some_entry(rng: &mut Pcg32) -> u16 {
    if rng.next_word() % 2 == 0 {
        CONSTRUCT
    } else {
        (rng.next_word() % 3) as u16
    }
}

// The next request of one of three clients, to one of two elements of some array.
fn some_request(alloc: Global, rng: &mut Pcg32, world: &PlainWorld) -> Result<Event, AllocError> {
    let client = rng.next_word() % 3;
    let last = world.client(client).map_or(0, |row| row.last);
    let array = (rng.next_word() % 6) as u16;
    let index = u64::from(rng.next_word() % 2);
    let entry = some_entry(rng);
    let word = u64::from(rng.next_word() % 3);
    let words = Words::from_slice(alloc, &[word, word])?;
    Ok(Event::Accept {
        client,
        number: last.saturating_add(1),
        to: Elem { array, index },
        entry,
        words,
    })
}

// A request, or the delivery of some pending message.
fn some_event(alloc: Global, rng: &mut Pcg32, world: &PlainWorld) -> Result<Event, AllocError> {
    let pending = world.pending();
    let place = rng.next_word() as usize;
    if rng.next_word() % 3 == 0 || pending.is_empty() {
        return some_request(alloc, rng, world);
    }
    Ok(Event::Deliver(pending[place % pending.len()].id))
}

fn effect_of(before: bool, after: bool) -> Effect {
    if before == after {
        Effect::Stayed
    } else if after {
        Effect::Constructed
    } else {
        Effect::Destroyed
    }
}

// The records of this message's delivery, in a catch-up list and in a log.
fn noted(rt: &(impl AllocGlobal + Abort), world: &PlainWorld, id: MsgId) -> (CatchUpEntry, Logged) {
    let message = world.message(id).expect(rt, "a message");
    let reaction = world
        .reaction(message)
        .expect(rt, "memory")
        .expect(rt, "a reaction");
    let received = world.counts(message.to).1.saturating_add(1);
    let effect = effect_of(world.state(message.to).is_some(), reaction.state.is_some());
    let message = message.copy(rt.alloc()).expect(rt, "memory");
    let caught_up = CatchUpEntry {
        message,
        received,
        effect,
    };
    let logged = Logged::Deliver {
        id,
        received,
        effect,
        sends: reaction.sends,
    };
    (caught_up, logged)
}

// Adds the records of this message's delivery to the history.
fn note_delivery(rt: &(impl AllocGlobal + Abort), history: &mut History, id: MsgId) {
    let (caught_up, logged) = noted(rt, &history.world, id);
    history.caught_up.push(caught_up).expect(rt, "memory");
    history.log.push(logged).expect(rt, "memory");
}

// A copy of the request, as a log has it, or nothing for a delivery.
fn logged_request(alloc: Global, event: &Event) -> Result<Option<Logged>, AllocError> {
    let Event::Accept {
        client,
        number,
        to,
        entry,
        words,
    } = event
    else {
        return Ok(None);
    };
    let words = Words::from_slice(alloc, words.as_slice())?;
    Ok(Some(Logged::Accept {
        client: *client,
        number: *number,
        to: *to,
        entry: *entry,
        words,
    }))
}

// Adds the records of this event to the history.
fn note_event(rt: &(impl AllocGlobal + Abort), history: &mut History, event: &Event) {
    if let Event::Deliver(id) = event {
        note_delivery(rt, history, *id);
    }
    if let Some(logged) = logged_request(rt.alloc(), event).expect(rt, "memory") {
        history.log.push(logged).expect(rt, "memory");
    }
}

// The event happens.
fn happens(rt: &impl Abort, world: &mut PlainWorld, event: &Event) {
    assert_eq!(rt; world.after(event), Ok(true));
}

// Some event happens, unless it can't.
fn go_on(rt: &(impl AllocGlobal + Abort), rng: &mut Pcg32, history: &mut History) {
    let event = some_event(rt.alloc(), rng, &history.world).expect(rt, "memory");
    if history.world.can(&event) {
        note_event(rt, history, &event);
        happens(rt, &mut history.world, &event);
        history.events.push(event).expect(rt, "memory");
    }
}

// A history of up to `count` events: those that can't happen are left out.
fn some_history(rt: &(impl AllocGlobal + Abort), rng: &mut Pcg32, count: usize) -> History {
    let alloc = rt.alloc();
    let mut history = History {
        world: empty_world(rt),
        events: Vec::new(alloc),
        log: Vec::new(alloc),
        caught_up: Vec::new(alloc),
    };
    for _ in 0..count {
        go_on(rt, rng, &mut history);
    }
    history
}

// The world after these events.
fn folded(rt: &(impl AllocGlobal + Abort), events: &[Event]) -> PlainWorld {
    let mut world = empty_world(rt);
    for event in events {
        happens(rt, &mut world, event);
    }
    world
}

// The world to which the image, the catch-up list and the log lead, and how many events led to it.
fn replayed(
    rt: &(impl AllocGlobal + Abort),
    image: PlainWorld,
    caught_up: &[CatchUpEntry],
    before: u64,
    log: &[Logged],
) -> (PlainWorld, u64) {
    assert!(rt; before <= MAX_EVENTS);
    match replay(rt.alloc(), image, caught_up, before, log).expect(rt, "memory") {
        Meaning::Whole(world, events) => (world, events),
        Meaning::Faulty(place) => panic!(rt; "{place:?}"),
    }
}

// A world and a count of events, as a text.
fn text_of(alloc: Global, world: &PlainWorld, events: u64) -> Result<String, AllocError> {
    format!(in alloc; "{events} {world:?}")
}

// An image of this moment and the log after it lead to the world of the fold.
fn assert_fold(rt: &(impl AllocGlobal + Abort), history: &History, moment: usize, wanted: &str) {
    let before = history.events.get(..moment).expect(rt, "events");
    let log = history.log.get(moment..).expect(rt, "a log");
    let image = folded(rt, before);
    let (world, events) = replayed(rt, image, &[], moment as u64, log);
    let text = text_of(rt.alloc(), &world, events).expect(rt, "memory");
    assert_eq!(rt; text.as_str(), wanted);
}

// An image of any moment and the log after it lead to the world of the fold.
fn assert_folds(rt: &(impl AllocGlobal + Abort), history: &History) {
    let count = history.events.len();
    let wanted = text_of(rt.alloc(), &history.world, count as u64).expect(rt, "memory");
    assert_eq!(rt; count, history.log.len());
    for moment in 0..=count {
        assert_fold(rt, history, moment, wanted.as_str());
    }
}

// Adds the records of some elements of each array.
fn add_records(world: &PlainWorld, text: &mut String) -> Result<(), AllocError> {
    for array in 0..6 {
        for index in 0..6 {
            let record = world.record(Elem { array, index });
            write!(text, "{record:?}\n")?;
        }
    }
    Ok(())
}

// The records of some elements of each array.
fn records_of(alloc: Global, world: &PlainWorld) -> Result<String, AllocError> {
    let mut text = String::new(alloc);
    add_records(world, &mut text)?;
    Ok(text)
}

// Records of this moment and all deliveries lead to the records of the fold; the deliveries before
// the moment are skipped.
fn assert_record(rt: &(impl AllocGlobal + Abort), history: &History, moment: usize, wanted: &str) {
    let before = history.events.get(..moment).expect(rt, "events");
    let image = folded(rt, before);
    let (world, _) = replayed(rt, image, &history.caught_up, 0, &[]);
    let records = records_of(rt.alloc(), &world).expect(rt, "memory");
    assert_eq!(rt; records.as_str(), wanted);
}

// Records of any moment and all deliveries lead to the records of the fold.
fn assert_records(rt: &(impl AllocGlobal + Abort), history: &History) {
    let wanted = records_of(rt.alloc(), &history.world).expect(rt, "memory");
    for moment in 0..=history.events.len() {
        assert_record(rt, history, moment, wanted.as_str());
    }
}

// Adds to the written count of the delivery at this place, if there is one.
fn miscounted(log: &mut Vec<Logged>, place: usize, by: u64) -> bool {
    match log.get_mut(place) {
        Some(Logged::Deliver { received, .. }) => {
            *received = received.wrapping_add(by);
            true
        }
        _ => false,
    }
}

// The delivery at this place, if there is one, is faulty with a wrong count.
fn assert_fault(rt: &(impl AllocGlobal + Abort), log: &mut Vec<Logged>, place: usize) {
    if miscounted(log, place, 1) {
        let wanted = format!(in rt.alloc(); "InEvents({place})").expect(rt, "memory");
        assert_verdict(rt, empty_world(rt), &[], 0, log, wanted.as_str());
        miscounted(log, place, u64::MAX);
    }
}

// A delivery with a wrong count is faulty, wherever it stands, and whatever follows it.
fn assert_faults(rt: &(impl AllocGlobal + Abort), log: &mut Vec<Logged>) {
    for place in 0..log.len() {
        assert_fault(rt, log, place);
    }
}

#[test]
fn random_logs_come_to_their_folds(rt: HostRuntime) {
    let mut rng = Pcg32::new(7, 11);
    for _ in 0..6 {
        let mut history = some_history(&rt, &mut rng, 80);
        assert!(rt; history.caught_up.len() >= 10);
        assert_folds(&rt, &history);
        assert_records(&rt, &history);
        assert_faults(&rt, &mut history.log);
    }
}
