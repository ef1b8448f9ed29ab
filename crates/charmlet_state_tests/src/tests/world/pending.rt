// The pending messages against a plain list, on long random sequences of additions and takes.

ghost use Rattle.std.specs.Prelude.{◌≡◌, ◌<◌, None};
ghost use Rattle.charmlet_model.specs.Reaction.{greatest};
ghost use Rattle.charmlet_model.specs.World.{message_among};

use charmlet_model::{Elem, Message, MsgId, Origin, Words};
use charmlet_world::Pending;
use rand_core::utils::NextWord;
use rand_pcg::Pcg32;
use std::alloc::{AllocError, AllocGlobal, Global};
use std::process::Abort;
use std::test::Fail;

const RECEIVER: Elem = Elem { array: 3, index: 4 };

// Odd numbers are a client's, and even ones an element's.
fn id_of(number: u64) -> MsgId {
    let origin = if number % 2 == 1 {
        Origin::Client(7)
    } else {
        Origin::Element(RECEIVER)
    };
    MsgId { origin, number }
}

fn message(alloc: Global, number: u64) -> Result<Message, AllocError> {
    let words = Words::from_slice(alloc, &[number])?;
    Ok(Message {
        id: id_of(number),
        to: RECEIVER,
        entry: (number % 65536) as u16,
        words,
    })
}

// The pending messages, and a plain list of their numbers.
#[derive(Drop)]
struct Lists {
    pending: Pending,
    plain: Vec<u64>,
}

impl Lists {
    fn new(alloc: Global) -> Lists {
        Lists {
            pending: Pending::new(alloc),
            plain: Vec::new(alloc),
        }
    }
}

// No message of this id is there.
fn lacks(rt: &impl Abort, pending: &Pending, id: MsgId)
    ensures { message_among id pending.now.messages ≡ None }
{
    assert!(rt; pending.find(id).is_none(), "{id} is there");
}

// The next sequence number.
fn next_seq_no(rt: &impl Abort, pending: &Pending) -> u64
    ensures next { result ≡ pending.now.next }
    ensures few { result < greatest }
{
    let seq = pending.next();
    assert!(rt; seq < u64::MAX, "no sequence numbers are left");
    seq
}

// Adds a message at both ends of both lists. If memory is refused, nothing has changed.
fn seq_no(
    rt: &(impl AllocGlobal + Abort),
    lists: &mut Lists,
    number: u64,
) -> Result<(), AllocError> {
    lists.plain.reserve(1)?;
    lists.pending.reserve(1)?;
    let message = message(rt.alloc(), number)?;
    lacks(rt, &lists.pending, message.id);
    let seq = next_seq_no(rt, &lists.pending);
    lists.pending.push(message, seq);
    lists.plain.push(number)?;
    Ok(())
}

// Adds the messages with numbers from `first` up to, but not including, `end`.
fn seq_nos(rt: &(impl AllocGlobal + Abort), lists: &mut Lists, first: u64, end: u64) {
    for number in first..end {
        seq_no(rt, lists, number).expect(rt, "memory");
    }
}

// It is the message of this number.
fn is_message(rt: &impl Abort, message: &Message, number: u64) {
    assert_eq!(rt; message.id.number, number);
    assert_eq!(rt; message.entry, (number % 65536) as u16);
    assert_eq!(rt; message.words.as_slice().first(), Some(&number));
}

// The message of this number is there, and is taken once.
fn take_message(rt: &impl Abort, pending: &mut Pending, number: u64) {
    let id = id_of(number);
    assert!(rt; pending.find(id).is_some(), "{number} isn't found");
    let taken = pending.take(id).expect(rt, "it is taken");
    is_message(rt, &taken.message, number);
    lacks(rt, pending, id);
    assert!(rt; pending.take(id).is_none(), "{number} is taken twice");
}

// Takes the message at this place in the plain list.
fn take(rt: &impl Abort, lists: &mut Lists, place: usize) {
    if place < lists.plain.len() {
        let number = lists.plain.remove(place);
        take_message(rt, &mut lists.pending, number);
    }
}

// Both are the same messages in the same order.
fn are_same(rt: &impl Abort, lists: &Lists) {
    assert_eq!(rt; lists.pending.len(), lists.plain.len());
    let mut numbers = lists.plain.iter();
    for (id, pending_message) in lists.pending.iter() {
        assert_eq!(rt; Some(&id.number), numbers.next());
        assert_eq!(rt; pending_message.words.as_slice().first(), Some(&id.number));
    }
    assert!(rt; numbers.next().is_none());
}

// How the steps of a run are chosen.
#[derive(Clone, Copy)]
struct Choice {
    seed: u64,
    steps: u64,
    // How many of a hundred steps add a message.
    seq_nos: u32,
    // How many of a hundred takes are at random. The others take the oldest.
    random: u32,
}

// A place in a list of this length, which isn't 0.
fn some_place(rng: &mut Pcg32, random: u32, length: usize) -> usize {
    if rng.next_word() % 100 < random {
        (rng.next_word() as usize).checked_rem(length).unwrap_or(0)
    } else {
        0
    }
}

// Adds the message of this number, or takes one.
fn step(
    rt: &(impl AllocGlobal + Abort),
    rng: &mut Pcg32,
    lists: &mut Lists,
    choice: Choice,
    number: u64,
) {
    if rng.next_word() % 100 < choice.seq_nos {
        seq_no(rt, lists, number).expect(rt, "memory");
    } else if !lists.plain.is_empty() {
        let place = some_place(rng, choice.random, lists.plain.len());
        take(rt, lists, place);
    }
}

fn run(rt: &(impl AllocGlobal + Abort), choice: Choice) {
    let mut rng = Pcg32::new(choice.seed, 54);
    let mut lists = Lists::new(rt.alloc());
    for number in 1..choice.steps {
        step(rt, &mut rng, &mut lists, choice, number);
        if number % 64 == 0 {
            are_same(rt, &lists);
        }
    }
    are_same(rt, &lists);
}

#[test]
fn messages_are_taken_in_order_of_seq_no(rt: HostRuntime) {
    let choice = Choice {
        seed: 1,
        steps: 8000,
        seq_nos: 52,
        random: 0,
    };
    run(&rt, choice);
}

#[test]
fn messages_are_taken_at_random(rt: HostRuntime) {
    let choice = Choice {
        seed: 2,
        steps: 8000,
        seq_nos: 55,
        random: 100,
    };
    run(&rt, choice);
}

#[test]
fn most_messages_are_taken_at_once(rt: HostRuntime) {
    let choice = Choice {
        seed: 3,
        steps: 4000,
        seq_nos: 30,
        random: 50,
    };
    run(&rt, choice);
}

// Takes a message at random, if there is any.
fn take_any(rt: &impl Abort, rng: &mut Pcg32, lists: &mut Lists) {
    if !lists.plain.is_empty() {
        let place = some_place(rng, 100, lists.plain.len());
        take(rt, lists, place);
    }
}

// Many come, and all go: the holes are swept.
#[test]
fn all_messages_are_taken_after_a_burst(rt: HostRuntime) {
    let mut lists = Lists::new(rt.alloc());
    seq_nos(&rt, &mut lists, 1, 1000);
    let mut rng = Pcg32::new(4, 54);
    for _ in 0..1000 {
        take_any(&rt, &mut rng, &mut lists);
        if lists.plain.len() % 50 == 0 {
            are_same(&rt, &lists);
        }
    }
    assert_eq!(rt; lists.pending.len(), 0);
    seq_nos(&rt, &mut lists, 2000, 2001);
    are_same(&rt, &lists);
}

// An id whose message was taken may come again, and its message is then the last.
#[test]
fn a_taken_id_comes_again_as_the_last(rt: HostRuntime) {
    let mut lists = Lists::new(rt.alloc());
    seq_nos(&rt, &mut lists, 1, 9);
    take(&rt, &mut lists, 2);
    seq_nos(&rt, &mut lists, 3, 4);
    are_same(&rt, &lists);
}

// Adds a message. When out of memory, nothing has changed, and it is tried once more.
fn seq_no_again(
    rt: &(impl AllocGlobal + Abort),
    lists: &mut Lists,
    number: u64,
) -> Result<(), AllocError> {
    if seq_no(rt, lists, number).is_ok() {
        return Ok(());
    }
    are_same(rt, lists);
    seq_no(rt, lists, number)
}

#[test]
fn refused_memory_leaves_the_pending_messages(rt: HostRuntime) -> Result<(), Fail> {
    let mut lists = Lists::new(rt.alloc());
    for number in 1..40 {
        seq_no_again(&rt, &mut lists, number)?;
        if number % 3 == 0 {
            take(&rt, &mut lists, 1);
        }
    }
    are_same(&rt, &lists);
    Ok(())
}

// Room for sixteen is made before sixteen messages come, and none of them takes more.
#[test]
fn sixteen_messages_come_within_the_room_that_was_made(rt: HostRuntime) {
    let mut pending = Pending::new(rt.alloc());
    pending.reserve(16).expect(&rt, "memory");
    for number in 0..16 {
        let message = message(rt.alloc(), number).expect(&rt, "memory");
        assert!(rt; pending.find(message.id).is_none());
        let seq = next_seq_no(&rt, &pending);
        pending.push(message, seq);
    }
    assert_eq!(rt; pending.len(), 16);
}
