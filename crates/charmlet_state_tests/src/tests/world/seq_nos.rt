// The sequence numbers against a plain list, on long random sequences of puts and takes.

ghost use Rattle.std.specs.Prelude.{◌≡◌, ◌<◌};

use charmlet_ready_queue::{SeqNos, Ticks};
use rand_core::utils::NextWord;
use rand_pcg::Pcg32;
use std::alloc::{AllocError, AllocGlobal, Global};
use std::marker::Brand;
use std::mem::size_of;
use std::process::Abort;
use std::sync::ledger::{Blank, Ledger};
use std::test::Fail;

// The sequence numbers, and a plain list of their numbers, which rises.
#[derive(Drop)]
struct Lists {
    seq_nos: SeqNos,
    plain: Vec<u64>,
}

impl Lists {
    fn new(alloc: Global) -> Lists {
        Lists {
            seq_nos: SeqNos::new(alloc),
            plain: Vec::new(alloc),
        }
    }
}

// The place of the list's first number that isn't before this one.
fn place_in(plain: &Vec<u64>, number: u64) -> usize {
    let mut place = 0;
    for other in plain {
        if *other >= number {
            return place;
        }
        place = place.saturating_add(1);
    }
    place
}

fn put_plain(plain: &mut Vec<u64>, number: u64) -> Result<(), AllocError> {
    if plain.contains(&number) {
        return Ok(());
    }
    let place = place_in(plain, number);
    if place <= plain.len() {
        plain.insert(place, number)?;
    }
    Ok(())
}

// If memory is refused, nothing has changed.
fn put(lists: &mut Lists, number: u64) -> Result<(), AllocError> {
    lists.plain.reserve(1)?;
    let wanted = lists.seq_nos.len().saturating_add(1);
    lists.seq_nos.reserve(wanted)?;
    if lists.seq_nos.len() < lists.seq_nos.capacity() {
        lists.seq_nos.put(number);
    }
    put_plain(&mut lists.plain, number)
}

fn take(lists: &mut Lists, number: u64) {
    lists.seq_nos.take(number);
    let place = place_in(&lists.plain, number);
    if lists.plain.get(place) == Some(&number) && place < lists.plain.len() {
        lists.plain.remove(place);
    }
}

// Both are the same numbers in the same order.
fn are_same<L: Ledger>(rt: &impl Abort, lists: &Lists, ticks: &mut Ticks<L>) {
    assert_eq!(rt; lists.seq_nos.len(), lists.plain.len());
    for place in 0..lists.plain.len() {
        if place < lists.seq_nos.len() {
            let number = lists.seq_nos.at(place, ticks);
            assert_eq!(rt; Some(&number), lists.plain.get(place));
        }
    }
}

// How the steps of a run are chosen: how many of a hundred are puts, and the limit of the numbers.
#[derive(Clone, Copy)]
struct Choice {
    seed: u64,
    steps: u64,
    puts: u32,
    range: u32,
}

fn step(rt: &(impl AllocGlobal + Abort), rng: &mut Pcg32, lists: &mut Lists, choice: Choice) {
    let number = rng.next_word().checked_rem(choice.range).unwrap_or(0) as u64;
    if rng.next_word() % 100 < choice.puts {
        put(lists, number).expect(rt, "memory");
    } else {
        take(lists, number);
    }
}

fn run<L: Ledger, R: AllocGlobal + Abort>(rt: &R, blank: Blank, choice: Choice)
    requires name { blank.name ≡ L.name }
    requires parts { blank.parts ≡ L.parts }
    requires some { 0 < blank.parts }
{
    let mut ticks = Ticks::<L>::new(blank);
    let mut rng = Pcg32::new(choice.seed, 54);
    let mut lists = Lists::new(rt.alloc());
    for _ in 0..choice.steps {
        step(rt, &mut rng, &mut lists, choice);
        are_same(rt, &lists, &mut ticks);
    }
}

// A count takes no bytes, whatever it counts.
fn has_no_bytes<L: Ledger, R: Abort>(rt: &R, blank: Blank)
    requires name { blank.name ≡ L.name }
    requires parts { blank.parts ≡ L.parts }
    requires some { 0 < blank.parts }
{
    let _ticks = Ticks::<L>::new(blank);
    assert_eq!(rt; size_of::<Ticks<L>>(), 0);
}

#[test]
fn a_count_takes_no_bytes(rt: HostRuntime) {
    has_no_bytes::<Brand, HostRuntime>(&rt, Blank::new(1));
}

#[test]
fn seq_nos_are_put_and_taken_at_random(rt: HostRuntime) {
    let choice = Choice {
        seed: 1,
        steps: 2000,
        puts: 55,
        range: 100,
    };
    run::<Brand, HostRuntime>(&rt, Blank::new(1), choice);
}

#[test]
fn most_seq_nos_are_taken_at_once(rt: HostRuntime) {
    let choice = Choice {
        seed: 2,
        steps: 2000,
        puts: 30,
        range: 20,
    };
    run::<Brand, HostRuntime>(&rt, Blank::new(1), choice);
}

// Adds a sequence number, and once more if memory is refused, after which nothing has changed.
fn put_again<L: Ledger>(
    rt: &impl Abort,
    lists: &mut Lists,
    number: u64,
    ticks: &mut Ticks<L>,
) -> Result<(), AllocError> {
    if put(lists, number).is_ok() {
        return Ok(());
    }
    are_same(rt, lists, ticks);
    put(lists, number)
}

fn refuse<L: Ledger, R: AllocGlobal + Abort>(rt: &R, blank: Blank) -> Result<(), AllocError>
    requires name { blank.name ≡ L.name }
    requires parts { blank.parts ≡ L.parts }
    requires some { 0 < blank.parts }
{
    let mut ticks = Ticks::<L>::new(blank);
    let mut lists = Lists::new(rt.alloc());
    for number in 0..40u64 {
        put_again(rt, &mut lists, number * 7 % 40, &mut ticks)?;
    }
    are_same(rt, &lists, &mut ticks);
    Ok(())
}

#[test]
fn refused_memory_leaves_the_seq_nos(rt: HostRuntime) -> Result<(), Fail> {
    refuse::<Brand, HostRuntime>(&rt, Blank::new(1))?;
    Ok(())
}

// The newest one is pushed behind the others, wherever the last change was.
#[test]
fn a_seq_no_is_pushed_after_a_take(rt: HostRuntime) {
    let mut seq_nos = SeqNos::new(rt.alloc());
    seq_nos.reserve(4).expect(&rt, "memory");
    seq_nos.push(3);
    seq_nos.push(5);
    seq_nos.take(3);
    seq_nos.push(8);
    assert_eq!(&rt; seq_nos.len(), 2);
}
