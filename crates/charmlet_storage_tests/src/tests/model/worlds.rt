//! Worked histories of one array, run by the plain program of the world. A transcript has a line `>
//! STEP` for each step, and after it the step's answer.

use charmlet_model::{CONSTRUCT, Elem, Event, KindVersion, Manifest, MsgId, Origin, Words};
use charmlet_reference::PlainWorld;
use std::alloc::{AllocError, AllocGlobal, Global};
use std::process::Abort;
use std::test::Fail;

const COUNTER: &str = "\
> req 7 1 0 0 65535 5
told unknown
> deliver c7.1
delivered
> flush
flushed 2
> status 7 1
told replied
> req 7 2 0 0 0 3
told unknown
> deliver c7.2
delivered
> status 7 2
told unknown
> flush
flushed 4
> status 7 2
told replied 8
> status 7 1
told replied
> status 7 0
told past
> status 7 18446744073709551615
told unknown
> status 9 0
told past
> status 9 18446744073709551615
told unknown
";

const SUM_STOPS: &str = "\
> req 7 1 0 0 65535 18446744073709551615
told unknown
> req 8 1 0 0 0 1
told unknown
> drain 9
drained 2 left 0
> flush
flushed 4
> status 8 1
told replied 18446744073709551615
";

const COUNTER_IS_READ: &str = "\
> req 7 1 0 0 65535 5
told unknown
> deliver c7.1
delivered
> req 7 2 0 0 1
told unknown
> deliver c7.2
delivered
> flush
flushed 4
> status 7 2
told replied 5
> record 0 1
none
";

const REPEATS: &str = "\
> req 7 1 0 0 65535 5
told unknown
> req 7 1 0 0 65535 5
told unknown
> pending
c7.1
> req 7 3 0 0 1
refused
> req 7 2 0 0 1
told unknown
> flush
flushed 2
> req 7 1 0 0 1
told accepted
> req 7 2 9 0 1
told accepted
> req 7 3 9 0 1
refused
> req 8 1 9 0 1
refused
> deliver c7.2
refused
> pending
c7.1 c7.2
";

const EIGHT_WAIT: &str = "\
> req 7 1 0 0 65535 5
told unknown
> req 7 2 0 0 0 1
told unknown
> req 7 3 0 0 0 1
told unknown
> req 7 4 0 0 0 1
told unknown
> req 7 5 0 0 0 1
told unknown
> req 7 6 0 0 0 1
told unknown
> req 7 7 0 0 0 1
told unknown
> req 7 8 0 0 0 1
told unknown
> req 7 9 0 0 1
refused
> deliver c7.2
refused
> deliver c7.1
delivered
> deliver c7.3
delivered
> flush
flushed 10
> status 7 3
told replied 6
> status 7 2
told accepted
> status 7 1
told replied
> req 7 9 0 0 1
told unknown
> status 7 1
told replied
> flush
flushed 11
> status 7 1
told past
> req 7 1 0 0 1
refused
> req 7 10 0 0 1
refused
";

const RING: &str = "\
> req 1 1 0 0 65535 1
told unknown
> req 2 1 0 1 65535 2
told unknown
> req 3 1 0 2 65535 0
told unknown
> req 4 1 0 0 0 4
told unknown
> drain 100
drained 8 left 0
> record 0 0
Some(Ring { next: 1, seen: 2 }) sent 2 received 3
> record 0 1
Some(Ring { next: 2, seen: 2 }) sent 1 received 3
> record 0 2
Some(Ring { next: 0, seen: 1 }) sent 1 received 2
";

const ACCOUNT_LACKS: &str = "\
> req 1 1 3 0 65535 9
told unknown
> deliver c1.1
delivered
> req 1 2 3 0 0 5 10
told unknown
> deliver c1.2
delivered
> flush
flushed 4
> status 1 2
told replied 0
> record 3 0
Some(Account { balance: 9 }) sent 0 received 2
> pending
none
";

const ACCOUNT_PAYS: &str = "\
> req 1 1 3 0 65535 10
told unknown
> deliver c1.1
delivered
> req 1 2 3 0 0 5 10
told unknown
> deliver c1.2
delivered
> flush
flushed 4
> status 1 2
told replied 1
> record 3 0
Some(Account { balance: 0 }) sent 1 received 2
> pending
e3.0.1
> deliver e3.0.1
refused
> pending
e3.0.1
";

const TREE: &str = "\
> req 1 1 0 0 65535 2
told unknown
> drain 100
drained 7 left 0
> req 1 2 0 1 0
told unknown
> drain 9
drained 1 left 0
> record 0 1
None sent 2 received 2
> req 1 3 0 1 65535 1
told unknown
> drain 9
drained 3 left 0
> record 0 1
Some(Tree { depth: 1 }) sent 4 received 3
> record 0 3
Some(Tree { depth: 0 }) sent 0 received 2
";

// The 1,024 clients of a world have made a request each.
const LAST_CLIENTS: &str = "\
> req 1024 1 0 0 1
refused
> req 1023 2 0 0 1
told unknown
> deliver c1023.1
delivered
> req 1023 3 0 0 1
told unknown
> req 1024 1 0 0 1
refused
> flush
flushed 1027
> status 1023 1
told replied
> status 1022 1
told accepted
> status 1024 1
told unknown
";

// A world as it is now, and as its durable events left it.
#[derive(Drop)]
struct Story {
    now: PlainWorld,
    durable: PlainWorld,
    events: Vec<Event>,
    flushed: usize,
}

// A client's request, as a line of a transcript has it.
#[derive(Clone, Copy)]
struct Request<'a> {
    client: u32,
    number: u64,
    to: Elem,
    entry: u16,
    words: &'a [u64],
}

// The request as an event.
fn event_of(rt: &(impl AllocGlobal + Abort), request: &Request<'_>) -> Event {
    let words = Words::from_slice(rt.alloc(), request.words).expect(rt, "memory");
    Event::Accept {
        client: request.client,
        number: request.number,
        to: request.to,
        entry: request.entry,
        words,
    }
}

// An owned copy of a text.
fn owned(rt: &(impl AllocGlobal + Abort), text: &str) -> String {
    String::from_str(rt.alloc(), text).expect(rt, "memory")
}

// An event that happened can happen again.
fn happens_again(rt: &impl Abort, world: &mut PlainWorld, event: &Event) {
    let has_happened = world.after(event).expect(rt, "memory");
    assert!(rt; has_happened);
}

impl Story {
    fn new(rt: &(impl AllocGlobal + Abort), array: u16, kind: u16) -> Story {
        Story {
            now: empty_world(rt.alloc(), array, kind).expect(rt, "memory"),
            durable: empty_world(rt.alloc(), array, kind).expect(rt, "memory"),
            events: Vec::new(rt.alloc()),
            flushed: 0,
        }
    }

    // Whether the event happened.
    fn happens(&mut self, rt: &impl Abort, event: Event) -> bool {
        let has_happened = self.now.after(&event).expect(rt, "memory");
        if has_happened {
            self.events.push(event).expect(rt, "memory");
        }
        has_happened
    }

    fn deliver(&mut self, rt: &(impl AllocGlobal + Abort), id: MsgId) -> String {
        if self.happens(rt, Event::Deliver(id)) {
            owned(rt, "delivered")
        } else {
            owned(rt, "refused")
        }
    }

    // Whether it repeats a request in the client's window.
    fn is_repeat(&self, request: &Request<'_>) -> bool {
        match self.now.client(request.client) {
            Some(row) => row.in_window(request.number),
            None => false,
        }
    }

    // A repeat changes nothing.
    fn request(&mut self, rt: &(impl AllocGlobal + Abort), request: &Request<'_>) -> String {
        if self.is_repeat(request) || self.happens(rt, event_of(rt, request)) {
            self.status(rt, request.client, request.number)
        } else {
            owned(rt, "refused")
        }
    }

    fn status(&self, rt: &(impl AllocGlobal + Abort), client: u32, number: u64) -> String {
        let told = self
            .durable
            .told(rt.alloc(), client, number)
            .expect(rt, "memory");
        format!(in rt.alloc(); "{told}").expect(rt, "memory")
    }

    fn flush(&mut self, rt: &(impl AllocGlobal + Abort)) -> String {
        for event in self.events.iter().skip(self.flushed) {
            happens_again(rt, &mut self.durable, event);
        }
        self.flushed = self.events.len();
        format!(in rt.alloc(); "flushed {}", self.flushed).expect(rt, "memory")
    }

    // Delivers the oldest message that can be delivered, up to `most` times, and counts them.
    fn deliver_oldest(&mut self, rt: &impl Abort, most: u64) -> u64 {
        for count in 0..most {
            let Some(id) = self.oldest() else {
                return count;
            };
            self.happens(rt, Event::Deliver(id));
        }
        most
    }

    fn drain(&mut self, rt: &(impl AllocGlobal + Abort), most: u64) -> String {
        let count = self.deliver_oldest(rt, most);
        let left = self.now.pending().len();
        format!(in rt.alloc(); "drained {count} left {left}").expect(rt, "memory")
    }

    // The oldest message that can be delivered.
    fn oldest(&self) -> Option<MsgId> {
        for message in self.now.pending() {
            if self.now.can(&Event::Deliver(message.id)) {
                return Some(message.id);
            }
        }
        None
    }

    fn record(&self, rt: &(impl AllocGlobal + Abort), elem: Elem) -> String {
        let Some(record) = self.now.record(elem) else {
            return owned(rt, "none");
        };
        let state = &record.state;
        let (sent, received) = (record.sent, record.received);
        format!(in rt.alloc(); "{state:?} sent {sent} received {received}").expect(rt, "memory")
    }

    fn pending(&self, rt: &(impl AllocGlobal + Abort)) -> String {
        let mut ids = String::new(rt.alloc());
        for message in self.now.pending() {
            push_id(rt, &mut ids, message.id);
        }
        if ids.is_empty() {
            owned(rt, "none")
        } else {
            ids
        }
    }

    // The answer to a line.
    fn answer(&mut self, rt: &(impl AllocGlobal + Abort), line: &str) -> String {
        let (name, rest) = line.split_once(' ').unwrap_or((line, ""));
        if name == "deliver" {
            return self.deliver(rt, id_of(rt, rest));
        }
        let numbers = numbers(rt, rest, ' ');
        self.answer_to(rt, name, &numbers)
    }

    // The answer to a line with this name and these numbers.
    fn answer_to(
        &mut self,
        rt: &(impl AllocGlobal + Abort),
        name: &str,
        numbers: &[u64],
    ) -> String {
        match name {
            "req" => self.request(rt, &request_of(rt, numbers)),
            "status" => self.status(rt, client_of(rt, numbers), number_at(rt, numbers, 1)),
            "drain" => self.drain(rt, number_at(rt, numbers, 0)),
            "flush" => self.flush(rt),
            "record" => self.record(rt, elem_at(rt, numbers, 0)),
            "pending" => self.pending(rt),
            _ => panic!(rt; "no such step: {name}"),
        }
    }
}

// Adds an id to those that are pending.
fn push_id(rt: &impl Abort, ids: &mut String, id: MsgId) {
    let space = if ids.is_empty() { "" } else { " " };
    write!(ids, "{space}{id}").expect(rt, "memory");
}

fn empty_world(alloc: Global, array: u16, kind: u16) -> Result<PlainWorld, AllocError> {
    match Manifest::of(alloc, &[(array, kind)])? {
        Some(manifest) => Ok(PlainWorld::new(alloc, manifest)),
        None => Err(AllocError),
    }
}

// The number at this place.
fn number_at(rt: &impl Abort, numbers: &[u64], at: usize) -> u64 {
    *numbers.get(at).expect(rt, "a number")
}

// The number at this place, which has 16 bits.
fn short_at(rt: &impl Abort, numbers: &[u64], at: usize) -> u16 {
    u16::try_from(number_at(rt, numbers, at)).expect(rt, "16 bits")
}

// The client that the numbers begin with.
fn client_of(rt: &impl Abort, numbers: &[u64]) -> u32 {
    u32::try_from(number_at(rt, numbers, 0)).expect(rt, "32 bits")
}

// The element that two numbers from this place on are.
fn elem_at(rt: &impl Abort, numbers: &[u64], at: usize) -> Elem {
    Elem {
        array: short_at(rt, numbers, at),
        index: number_at(rt, numbers, at.saturating_add(1)),
    }
}

// The request that the numbers are.
fn request_of<'a>(rt: &impl Abort, numbers: &'a [u64]) -> Request<'a> {
    Request {
        client: client_of(rt, numbers),
        number: number_at(rt, numbers, 1),
        to: elem_at(rt, numbers, 2),
        entry: short_at(rt, numbers, 4),
        words: numbers.get(5..).expect(rt, "words"),
    }
}

// The numbers between the separators; the empty text has none.
fn numbers(rt: &(impl AllocGlobal + Abort), text: &str, separator: char) -> Vec<u64> {
    let mut numbers = Vec::new(rt.alloc());
    if text.is_empty() {
        return numbers;
    }
    for word in text.split(separator) {
        let number = word.parse::<u64>().expect(rt, "a number");
        numbers.push(number).expect(rt, "memory");
    }
    numbers
}

// The id with this text.
fn id_of(rt: &(impl AllocGlobal + Abort), text: &str) -> MsgId {
    let numbers = numbers(rt, text.trim_start_matches(['c', 'e']), '.');
    if numbers.len() == 2 {
        let origin = Origin::Client(client_of(rt, &numbers));
        let number = number_at(rt, &numbers, 1);
        MsgId { origin, number }
    } else {
        let origin = Origin::Element(elem_at(rt, &numbers, 0));
        let number = number_at(rt, &numbers, 2);
        MsgId { origin, number }
    }
}

// Takes a step, and prints it with its answer.
fn print_step(
    rt: &(impl AllocGlobal + Abort),
    story: &mut Story,
    printed: &mut String,
    step: &str,
) {
    let answer = story.answer(rt, step);
    print_answer(rt, printed, step, answer.as_str());
}

// Prints a step with its answer.
fn print_answer(rt: &impl Abort, printed: &mut String, step: &str, answer: &str) {
    write!(printed, "> {step}\n{answer}\n").expect(rt, "memory");
}

// Runs the steps of a transcript, and compares what they answer with it.
fn go_on(rt: &(impl AllocGlobal + Abort), story: &mut Story, transcript: &str) {
    let mut printed = String::new(rt.alloc());
    for line in transcript.lines() {
        if let Some(step) = line.strip_prefix("> ") {
            print_step(rt, story, &mut printed, step);
        }
    }
    assert_eq!(rt; printed.as_str(), transcript);
}

// Runs the steps of a transcript in a new world with an array of this kind, and compares what they
// answer with it.
fn play(rt: &(impl AllocGlobal + Abort), array: u16, kind: u16, transcript: &str) {
    let mut story = Story::new(rt, array, kind);
    go_on(rt, &mut story, transcript);
}

#[test]
fn transcripts_are_as_they_were_told(rt: HostRuntime) {
    play(&rt, 0, 1, COUNTER);
    play(&rt, 0, 1, SUM_STOPS);
    play(&rt, 0, 1, COUNTER_IS_READ);
    play(&rt, 0, 1, REPEATS);
    play(&rt, 0, 1, EIGHT_WAIT);
    play(&rt, 0, 2, RING);
    play(&rt, 3, 3, ACCOUNT_LACKS);
    play(&rt, 3, 3, ACCOUNT_PAYS);
    play(&rt, 0, 5, TREE);
}

// The first request of a client, with `words` words, all of them 1, has this answer.
fn asks_first(
    rt: &(impl AllocGlobal + Abort),
    story: &mut Story,
    client: u32,
    entry: u16,
    words: usize,
    wanted: &str,
) {
    let payload = vec![in rt.alloc(); 1; words].expect(rt, "memory");
    let answer = ask_first(rt, story, client, entry, &payload);
    is_answer(rt, answer.as_str(), wanted, client);
}

// The answer to the first request of a client.
fn ask_first(
    rt: &(impl AllocGlobal + Abort),
    story: &mut Story,
    client: u32,
    entry: u16,
    words: &[u64],
) -> String {
    let request = Request {
        client,
        number: 1,
        to: Elem { array: 0, index: 0 },
        entry,
        words,
    };
    story.request(rt, &request)
}

// The client is answered this.
fn is_answer(rt: &impl Abort, answer: &str, wanted: &str, client: u32) {
    assert_eq!(rt; answer, wanted, "client {client}");
}

#[test]
fn payloads_have_512_words_at_most(rt: HostRuntime) {
    let mut story = Story::new(&rt, 0, 1);
    asks_first(&rt, &mut story, 8, 0, 513, "refused");
    assert!(rt; story.now.client(8).is_none());
    asks_first(&rt, &mut story, 8, 0, 512, "told unknown");
}

#[test]
fn worlds_have_1024_clients_at_most(rt: HostRuntime) {
    let mut story = Story::new(&rt, 0, 1);
    for client in 0..1024 {
        asks_first(&rt, &mut story, client, CONSTRUCT, 1, "told unknown");
    }
    go_on(&rt, &mut story, LAST_CLIENTS);
}

#[test]
fn worlds_keep_their_manifest(rt: HostRuntime) {
    let world = empty_world(rt.alloc(), 3, 6).expect(&rt, "memory");
    assert_eq!(rt;
        world.manifest().kind_version_of(3),
        Some(KindVersion::Tape)
    );
    assert_eq!(rt; world.manifest().kind_version_of(0), None);
}

const ROOT: Elem = Elem { array: 0, index: 0 };

// A tree of depth 1 is constructed, and destroys itself. The events are added to the others.
fn live_as_a_tree(alloc: Global, events: &mut Vec<Event>) -> Result<(), AllocError> {
    for (number, entry) in [(1, CONSTRUCT), (2, 0)] {
        let words = Words::from_slice(alloc, &[1])?;
        events.push(Event::Accept {
            client: 7,
            number,
            to: ROOT,
            entry,
            words,
        })?;
        events.push(Event::Deliver(MsgId {
            origin: Origin::Client(7),
            number,
        }))?;
    }
    Ok(())
}

// Whether an event happened. When out of memory, the world has to be unchanged, and the event is
// tried again.
fn happened(alloc: Global, world: &mut PlainWorld, event: &Event) -> Result<bool, AllocError> {
    let before = format!(in alloc; "{world:?}")?;
    let happened = world.after(event);
    if happened.is_ok() {
        return happened;
    }
    let after = format!(in alloc; "{world:?}")?;
    if after != before {
        return Ok(false);
    }
    world.after(event)
}

// The world after the events, if each of them happened.
fn world_after(alloc: Global, events: &[Event]) -> Result<Option<PlainWorld>, AllocError> {
    let mut world = empty_world(alloc, 0, 5)?;
    for event in events {
        if !happened(alloc, &mut world, event)? {
            return Ok(None);
        }
    }
    Ok(Some(world))
}

// The world after such a life.
fn world_of_a_tree(alloc: Global) -> Result<Option<PlainWorld>, AllocError> {
    let mut events = Vec::new(alloc);
    live_as_a_tree(alloc, &mut events)?;
    world_after(alloc, &events)
}

// The tree sent to its two children, and replied to its client.
fn was_a_tree(rt: &impl Abort, world: &PlainWorld) {
    assert_eq!(rt; world.pending().len(), 2);
    let root = world.record(ROOT).expect(rt, "the destroyed root's record");
    assert!(rt; root.state.is_none());
    assert_eq!(rt; (root.sent, root.received), (2, 2));
    let row = world.client(7).expect(rt, "the client's row");
    assert!(rt; matches!(row.reply(2), Some(words) if words.as_slice() == [1].as_slice()));
}

// A refusal of memory outside the events is tried again here.
#[test]
fn refused_memory_leaves_the_world(rt: HostRuntime) -> Result<(), Fail> {
    let world = match world_of_a_tree(rt.alloc()) {
        Ok(world) => world,
        Err(AllocError) => world_of_a_tree(rt.alloc())?,
    };
    was_a_tree(
        &rt,
        &world.expect(&rt, "what refused memory left as it was"),
    );
    Ok(())
}
