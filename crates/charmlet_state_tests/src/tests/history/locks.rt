//! Locks that threads share.

ghost use Rattle.std.specs.Prelude.{◌≡◌, ◌≢◌, ◌<◌, ◌≤◌, ◌^◌, IfOk, vec_len};
ghost use Rattle.std.specs.Vec.{vec_capacity};
ghost use Rattle.charmlet_locks.specs.Locks.{shown};

use charmlet_locks::{LockRoom, Locks, Numbering};
use std::alloc::{AllocError, Global};
use std::process::Abort;
use std::sync::Wait;
use std::sync::atomic::AtomicBool;
use std::sync::atomic::Ordering::SeqCst;
use std::test::Fail;
use std::thread;
use std::thread::Threads;
use std::time::{Clock, Duration};

/// A sum under the lock of a place.
#[derive(Debug, Drop)]
struct Sum {
    place: u64,
    sum: u64,
}

/// A sum has the number of its place.
struct ByPlace;

impl Numbering<Sum> for ByPlace {
    ghost number = { λ s. s.place };
}

impl Sum {
    fn add(&mut self, value: u64)
        ensures { self.new.place ≡ self.old.place }
    {
        self.sum = self.sum.wrapping_add(value);
    }
}

/// Adds to the sum of a place.
fn add_at<R: Wait>(rt: &R, locks: &Locks<Sum, ByPlace>, place: usize, value: u64)
    requires { place < locks.now }
{
    let mut held = locks.lock(rt, place);
    held.grip.get_mut().add(value);
}

/// Moves all of one sum to another place. It takes the lock of the lower place first.
fn carry<R: Wait>(rt: &R, locks: &Locks<Sum, ByPlace>, from: usize, to: usize)
    requires places { (from < locks.now) × (to < locks.now) }
    requires apart { from ≢ to }
{
    let mut first = locks.lock(rt, from.min(to));
    let mut second = locks.lock(rt, from.max(to));
    if from < to {
        carry_between(first.grip.get_mut(), second.grip.get_mut());
    } else {
        carry_between(second.grip.get_mut(), first.grip.get_mut());
    }
}

fn carry_between(from: &mut Sum, to: &mut Sum)
    ensures from { from.new.place ≡ from.old.place }
    ensures to { to.new.place ≡ to.old.place }
{
    to.sum = to.sum.wrapping_add(from.sum);
    from.sum = 0;
}

/// This many locks, with sums of 0.
fn locks_of(alloc: Global, count: usize) -> Result<Locks<Sum, ByPlace>, AllocError>
    requires { count < 2 ^ 32 }
    ensures { IfOk result (λ locks. locks ≡ count) }
{
    Ok(filled(LockRoom::new(alloc, count)?, count))
}

/// This many locks, with sums of 0, in a room for them.
fn filled(room: LockRoom<Sum, ByPlace>, count: usize) -> Locks<Sum, ByPlace>
    requires { room ≡ shown count 0 }
    ensures { result ≡ count }
{
    let mut room = room;
    for place in 0..count {
        room.put(Sum {
            place: place as u64,
            sum: 0,
        });
    }
    room.into_locks()
}

/// The sums, in order.
fn sums_of(
    rt: &impl Abort,
    alloc: Global,
    locks: Locks<Sum, ByPlace>,
) -> Result<Vec<u64>, AllocError> {
    let values = Vec::with_capacity(alloc, locks.len())?;
    let Ok((_room, values)) = locks.into_values(values) else {
        panic!(rt; "no lock is taken")
    };
    let mut sums = Vec::with_capacity(alloc, values.len())?;
    for value in &values {
        sums.push(value.sum)?;
    }
    Ok(sums)
}

/// Two threads add to two places many times, and carry the sums to and fro.
fn add_both<R: Threads + Wait + Sync>(rt: &R, locks: &Locks<Sum, ByPlace>, rounds: u64)
    requires { 2 ≤ locks.now }
{
    thread::join(
        rt,
        || add_often(rt, locks, 0, rounds),
        || add_often(rt, locks, 1, rounds),
    );
}

fn add_often<R: Wait>(rt: &R, locks: &Locks<Sum, ByPlace>, place: usize, rounds: u64)
    requires { (2 ≤ locks.now) × (place ≤ 1) }
{
    for round in 0..rounds {
        add_at(rt, locks, place, 1);
        add_at(rt, locks, 1 - place, 1);
        if round % 8 == 0 {
            carry(rt, locks, place, 1 - place);
        }
    }
}

#[test]
fn two_threads_add_under_two_locks(rt: HostRuntime) -> Result<(), Fail> {
    let locks = locks_of(rt.alloc(), 2)?;
    add_both(&rt, &locks, 20_000);
    let sums = sums_of(&rt, rt.alloc(), locks)?;
    assert_eq!(rt; sums.len(), 2);
    assert_eq!(rt; sums[0].wrapping_add(sums[1]), 80_000);
    Ok(())
}

#[test]
fn a_taken_lock_is_not_taken_again(rt: HostRuntime) -> Result<(), Fail> {
    let locks = locks_of(rt.alloc(), 2)?;
    let held = locks.lock(&rt, 0);
    assert!(rt; locks.try_lock(0).is_none());
    assert!(rt; locks.try_lock(1).is_some());
    drop(held);
    let mut held = locks.try_lock(0).expect(&rt, "nobody has it");
    held.grip.get_mut().add(7);
    drop(held);
    let sums = sums_of(&rt, rt.alloc(), locks)?;
    assert_eq!(rt; sums.as_slice(), [7, 0].as_slice());
    Ok(())
}

/// Takes a lock, tells the other thread so, and gives it back once that is asleep.
fn hold_long<R: Wait + Clock>(rt: &R, locks: &Locks<Sum, ByPlace>, is_held: &AtomicBool)
    requires { 1 ≤ locks.now }
{
    let mut held = locks.lock(rt, 0);
    is_held.store(true, SeqCst);
    thread::sleep(rt, Duration::from_millis(50));
    held.grip.get_mut().add(1);
}

/// Waits for a lock that the other thread has.
fn wait_long<R: Wait>(rt: &R, locks: &Locks<Sum, ByPlace>, is_held: &AtomicBool)
    requires { 1 ≤ locks.now }
{
    while_not(is_held);
    let mut held = locks.lock(rt, 0);
    held.grip.get_mut().add(10);
}

fn while_not(is_held: &AtomicBool) {
    for _ in 0..u64::MAX {
        if is_held.load(SeqCst) {
            return;
        }
        thread::yield_now();
    }
}

fn hand_over<R: Threads + Wait + Clock + Sync>(
    rt: &R,
    locks: &Locks<Sum, ByPlace>,
    is_held: &AtomicBool,
)
    requires { 1 ≤ locks.now }
{
    thread::join(
        rt,
        || hold_long(rt, locks, is_held),
        || wait_long(rt, locks, is_held),
    );
}

#[test]
fn a_thread_that_sleeps_is_woken(rt: HostRuntime) -> Result<(), Fail> {
    let locks = locks_of(rt.alloc(), 1)?;
    let is_held = AtomicBool::new(false);
    hand_over(&rt, &locks, &is_held);
    let sums = sums_of(&rt, rt.alloc(), locks)?;
    assert_eq!(rt; sums.as_slice(), [11].as_slice());
    Ok(())
}

/// Adds its number to each sum.
fn add_numbers<R: Wait>(rt: &R, locks: &Locks<Sum, ByPlace>) {
    for place in 0..locks.len() {
        add_at(rt, locks, place, place as u64);
    }
}

#[test]
fn sixty_four_places_come_out_in_order(rt: HostRuntime) -> Result<(), Fail> {
    let locks = locks_of(rt.alloc(), 64)?;
    add_numbers(&rt, &locks);
    let sums = sums_of(&rt, rt.alloc(), locks)?;
    assert!(rt; sums.iter().copied().eq(0..64));
    Ok(())
}

/// Takes the values out, and puts others in.
fn refilled(rt: &impl Abort, locks: Locks<Sum, ByPlace>, values: Vec<Sum>) -> Locks<Sum, ByPlace>
    requires none { vec_len values ≡ 0 }
    requires room { locks ≤ vec_capacity values }
    ensures { result ≡ locks }
{
    let count = locks.len();
    let Ok((room, _values)) = locks.into_values(values) else {
        panic!(rt; "no lock is taken")
    };
    filled(room, count)
}

#[test]
fn locks_are_filled_again(rt: HostRuntime) -> Result<(), Fail> {
    let locks = locks_of(rt.alloc(), 3)?;
    add_numbers(&rt, &locks);
    let locks = refilled(&rt, locks, Vec::with_capacity(rt.alloc(), 3)?);
    add_numbers(&rt, &locks);
    let sums = sums_of(&rt, rt.alloc(), locks)?;
    assert_eq!(rt; sums.as_slice(), [0, 1, 2].as_slice());
    Ok(())
}
