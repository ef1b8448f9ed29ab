//! The sequence numbers on all processors.

ghost use Rattle.std.specs.Prelude.{◌≡◌, ◌≢◌, ℕ, ◌+◌, ◌≤◌, ◌<◌, true, [], ◌∷◌, ◌++◌, List, length, slice_get, Some, is_none, IsOk, OnOk, OnErr, IfOk, IfSome, option_map};
ghost use Rattle.std.specs.List.{AllByRecursion};
ghost use Rattle.charmlet_model.specs.Reaction.{greatest};
ghost use Rattle.charmlet_ready_queue.specs.SeqNos.SeqNos.{AllBefore, Climbs, without_number};
ghost use Rattle.charmlet_ready_queue.specs.Index.Index.{AreApart, AreHeld, AreKept, ArePositioned, HasRoomFor, HaveRoom, IsBelow, IsHeld, IsIndexOf, IsPlaced, IsRoomy, earlier, first_of, holds, is_ready_on, moved, stood};
ghost use Rattle.charmlet_ready_queue.specs.declared.index.lists.Lists.{Lists as ALists};
ghost use Rattle.charmlet_ready_queue.specs.declared.index.place.QueuePlace.{QueuePlace as APlace};

use crate::index::chain::Chain;
use crate::index::lists::Lists;
use crate::index::place::{QueuePlace, Readiness};
use crate::index::turns::{push_in, put_in, take_from};
use crate::seq_nos::Ticks;
use std::alloc::{AllocError, Global};
use std::marker::{Brand, Model};
use std::sync::ledger::{Blank, Ledger};

/// How many more sequence numbers each reservation makes room for, so that the lists are seldom
/// gone through for it.
const MORE: usize = 256;

/// For each processor the sequence numbers that are ready on it, and those that wait there. A
/// contract sees these lists, the room of each for more sequence numbers, and the next sequence
/// number.
#[derive(Drop)]
pub struct Index {
    alloc: Global,
    lists: Vec<Lists>,
    headroom: usize,
    next: u64,
}

impl Model for Index {
    ghost use Rattle.charmlet_ready_queue.specs.Index.Index.{AreKept, Indexed};

    ghost Value = { Indexed };

    ghost view = { λ i. record { lists = i.lists.items; headroom = i.headroom; next = i.next } };

    ghost invariant = { λ i. AreKept i.headroom i.next i.lists.items };
}

impl Index {
    /// An index with no sequence numbers, and no processors until it is opened. It takes no memory.
    pub fn new(alloc: Global) -> Self
        ensures lists { result.lists ≡ [] }
        ensures headroom { result.headroom ≡ 0 }
        ensures next { result.next ≡ 0 }
    {
        Index {
            alloc,
            lists: Vec::new(alloc),
            headroom: 0,
            next: 0,
        }
    }

    /// Opens lists for this many processors. If it had lists for another number of them, it has no
    /// sequence numbers afterwards. If memory is refused, nothing changes.
    pub fn open(&mut self, processors: usize) -> Result<(), AllocError>
        ensures ok { OnOk result (length self.new.lists ≡ processors) }
        ensures same { length self.old.lists ≡ processors → self.new ≡ self.old }
        ensures index { (place : ℕ → APlace) →
            IsIndexOf [] place self.old.lists → IsIndexOf [] place self.new.lists }
        ensures empty { OnOk result (length self.old.lists ≢ processors →
            (place : ℕ → APlace) → IsIndexOf [] place self.new.lists) }
        ensures next { self.new.next ≡ self.old.next }
        ensures err { OnErr result (self.new ≡ self.old) }
    {
        if self.lists.len() == processors {
            return Ok(());
        }
        self.lists = empty_lists(self.alloc, processors)?;
        self.headroom = 0;
        Ok(())
    }

    /// Makes room for this many more sequence numbers, wherever each of them is. If memory is
    /// refused, no sequence number changes.
    pub fn reserve(&mut self, additional: usize) -> Result<(), AllocError>
        ensures index { (seq_nos : List ℕ) (place : ℕ → APlace) →
            IsIndexOf seq_nos place self.old.lists → IsIndexOf seq_nos place self.new.lists }
        ensures len { length self.new.lists ≡ length self.old.lists }
        ensures next { self.new.next ≡ self.old.next }
        ensures headroom { self.old.headroom ≤ self.new.headroom }
        ensures ok { OnOk result (additional ≤ self.new.headroom) }
        ensures succeeds { additional ≤ self.old.headroom → IsOk result }
    {
        if additional <= self.headroom {
            return Ok(());
        }
        let wanted = additional.saturating_add(MORE);
        // Each of them needs a number.
        if u64::MAX - self.next < wanted as u64 {
            return Err(AllocError);
        }
        reserve_each(&mut self.lists, self.headroom, wanted)?;
        self.headroom = wanted;
        Ok(())
    }

    /// Makes room for this many sequence numbers that come to the processor from others, besides
    /// the room that there is for more. If memory is refused, no sequence number changes.
    pub fn reserve_on(&mut self, on: usize, additional: usize) -> Result<(), AllocError>
        requires { on < length self.old.lists }
        ensures index { (seq_nos : List ℕ) (place : ℕ → APlace) →
            IsIndexOf seq_nos place self.old.lists → IsIndexOf seq_nos place self.new.lists }
        ensures len { length self.new.lists ≡ length self.old.lists }
        ensures next { self.new.next ≡ self.old.next }
        ensures headroom { self.new.headroom ≡ self.old.headroom }
        ensures ok { OnOk result (IfSome (slice_get self.new.lists on)
            (IsRoomy (self.new.headroom + additional))) }
    {
        reserve_one(&mut self.lists, self.headroom, on, additional)
    }

    /// Adds a sequence number behind all others, and returns it. It takes no memory.
    pub fn push(&mut self, at: QueuePlace) -> u64
        requires on { at.on < length self.old.lists }
        requires home { at.home < length self.old.lists }
        requires room { 0 < self.old.headroom }
        ensures number { result ≡ self.old.next }
        ensures few { result < greatest }
        ensures index { (seq_nos : List ℕ) (place : ℕ → APlace) →
            IsIndexOf seq_nos place self.old.lists → Climbs seq_nos →
            AllBefore self.old.next seq_nos →
            IsIndexOf (seq_nos ++ self.old.next ∷ []) (moved self.old.next at place)
            self.new.lists }
        ensures len { length self.new.lists ≡ length self.old.lists }
        ensures next { self.new.next ≡ self.old.next + 1 }
        ensures headroom { self.new.headroom + 1 ≡ self.old.headroom }
    {
        let number = self.next;
        push_in(&mut self.lists, at, number);
        self.headroom -= 1;
        self.next = number + 1;
        number
    }

    /// Takes out a sequence number that is there. It takes no memory.
    pub fn take(&mut self, number: u64, at: QueuePlace)
        requires on { at.on < length self.old.lists }
        requires home { at.home < length self.old.lists }
        requires held { IsHeld number at self.old.lists }
        ensures index { (seq_nos : List ℕ) (place : ℕ → APlace) →
            IsIndexOf seq_nos place self.old.lists → Climbs seq_nos → holds number seq_nos ≡ true →
            place number ≡ at → IsIndexOf (without_number number seq_nos) place self.new.lists }
        ensures len { length self.new.lists ≡ length self.old.lists }
        ensures next { self.new.next ≡ self.old.next }
        ensures headroom { self.new.headroom ≡ self.old.headroom }
    {
        take_from(&mut self.lists, at, number);
    }

    /// Moves a sequence number from its queue place to another one that has room for it. On a
    /// processor for which the number didn't count before, that room was made. It takes no memory.
    pub fn shift(&mut self, number: u64, from: QueuePlace, into: QueuePlace)
        requires from_on { from.on < length self.old.lists }
        requires into_on { into.on < length self.old.lists }
        requires from_home { from.home < length self.old.lists }
        requires into_home { into.home < length self.old.lists }
        requires held { IsHeld number from self.old.lists }
        requires room { HasRoomFor self.old.headroom from into self.old.lists }
        ensures index { (seq_nos : List ℕ) (place : ℕ → APlace) →
            IsIndexOf seq_nos place self.old.lists → Climbs seq_nos → holds number seq_nos ≡ true →
            place number ≡ from → IsIndexOf seq_nos (moved number into place) self.new.lists }
        ensures room { (p n : ℕ) → IfSome (slice_get self.old.lists p) (IsRoomy (n + 1)) →
            IfSome (slice_get self.new.lists p) (IsRoomy n) }
        ensures len { length self.new.lists ≡ length self.old.lists }
        ensures next { self.new.next ≡ self.old.next }
        ensures headroom { self.new.headroom ≡ self.old.headroom }
    {
        take_from(&mut self.lists, from, number);
        put_in(&mut self.lists, into, number);
    }

    /// Moves an element's sequence numbers after a change of its readiness: it stands on another
    /// processor, or takes other messages. `calls` has each of its sequence numbers once, and there
    /// is room for them: on a processor for which they didn't count before, that room was made. It
    /// takes no memory.
    pub fn update_readiness<C: Chain>(&mut self, calls: &mut C, old: Readiness, new: Readiness)
        requires old_on { old.on < length self.old.lists }
        requires new_on { new.on < length self.old.lists }
        requires old_home { old.home < length self.old.lists }
        requires new_home { new.home < length self.old.lists }
        requires apart { AreApart (C.left calls.old) }
        requires held { AreHeld old (C.left calls.old) self.old.lists }
        requires room { HaveRoom self.old.headroom old new (length (C.left calls.old))
            self.old.lists }
        ensures index { (seq_nos : List ℕ) (place : ℕ → APlace) →
            IsIndexOf seq_nos place self.old.lists → Climbs seq_nos →
            ArePositioned old (C.left calls.old) seq_nos place →
            IsIndexOf seq_nos (stood new (C.left calls.old) place) self.new.lists }
        ensures len { length self.new.lists ≡ length self.old.lists }
        ensures next { self.new.next ≡ self.old.next }
        ensures headroom { self.new.headroom ≡ self.old.headroom }
    {
        while let Some(call) = calls.next() {
            let from = old.place(call.constructs);
            let into = new.place(call.constructs);
            self.shift(call.number, from, into);
        }
    }

    /// The oldest sequence number that is ready on the processor. It takes at most one look.
    pub fn oldest_on<L: Ledger>(&self, on: usize, ticks: &mut Ticks<L>) -> Option<u64>
        ensures index { (seq_nos : List ℕ) (place : ℕ → APlace) →
            IsIndexOf seq_nos place self.now.lists → on < length self.now.lists →
            result ≡ first_of (λ n. is_ready_on (place n) on) seq_nos }
        ensures ticks { ticks.new ≤ ticks.old + 1 }
    {
        oldest_of(&self.lists, on, ticks)
    }

    /// The oldest sequence number that is ready on any processor, together with that processor. It
    /// takes at most one look for each processor.
    pub fn next_in<L: Ledger>(&self, ticks: &mut Ticks<L>) -> Option<(usize, u64)>
        ensures index { (seq_nos : List ℕ) (place : ℕ → APlace) →
            IsIndexOf seq_nos place self.now.lists → Climbs seq_nos →
            AllByRecursion (λ n. (place n).on < length self.now.lists) seq_nos →
            option_map (λ e. e.1) result ≡ first_of (λ n. (place n).is_ready) seq_nos }
        ensures placed { (seq_nos : List ℕ) (place : ℕ → APlace) →
            IsIndexOf seq_nos place self.now.lists → IsPlaced place result }
        ensures ticks { ticks.new ≤ ticks.old + length self.now.lists }
    {
        next_of(&self.lists, ticks)
    }

    /// Answers as `next_in`, with a count of looks of its own. It takes no memory.
    pub fn next(&self) -> Option<(usize, u64)>
        ensures index { (seq_nos : List ℕ) (place : ℕ → APlace) →
            IsIndexOf seq_nos place self.now.lists → Climbs seq_nos →
            AllByRecursion (λ n. (place n).on < length self.now.lists) seq_nos →
            option_map (λ e. e.1) result ≡ first_of (λ n. (place n).is_ready) seq_nos }
        ensures placed { (seq_nos : List ℕ) (place : ℕ → APlace) →
            IsIndexOf seq_nos place self.now.lists → IsPlaced place result }
    {
        self.next_counted::<Brand>(Blank::new(1))
    }

    fn next_counted<L: Ledger>(&self, blank: Blank) -> Option<(usize, u64)>
        requires name { blank.name ≡ L.name }
        requires parts { blank.parts ≡ L.parts }
        requires some { 0 < blank.parts }
        ensures index { (seq_nos : List ℕ) (place : ℕ → APlace) →
            IsIndexOf seq_nos place self.now.lists → Climbs seq_nos →
            AllByRecursion (λ n. (place n).on < length self.now.lists) seq_nos →
            option_map (λ e. e.1) result ≡ first_of (λ n. (place n).is_ready) seq_nos }
        ensures placed { (seq_nos : List ℕ) (place : ℕ → APlace) →
            IsIndexOf seq_nos place self.now.lists → IsPlaced place result }
    {
        let mut ticks = Ticks::<L>::new(blank);
        self.next_in(&mut ticks)
    }

    /// Whether no sequence number is ready on any processor. It takes no memory.
    pub fn quiet(&self) -> bool
        ensures { (seq_nos : List ℕ) (place : ℕ → APlace) →
            IsIndexOf seq_nos place self.now.lists →
            AllByRecursion (λ n. (place n).on < length self.now.lists) seq_nos →
            result ≡ is_none (first_of (λ n. (place n).is_ready) seq_nos) }
    {
        none_ready(&self.lists)
    }
}

/// Empty lists for this many processors.
fn empty_lists(alloc: Global, processors: usize) -> Result<Vec<Lists>, AllocError>
    ensures index { IfOk result (λ lists. (place : ℕ → APlace) →
        IsIndexOf [] place lists.items) }
    ensures len { IfOk result (λ lists. length lists.items ≡ processors) }
    ensures kept { IfOk result (λ lists. AreKept 0 0 lists.items) }
{
    let mut lists = Vec::new(alloc);
    for _place in 0..processors {
        lists.push(Lists::new(alloc))?;
    }
    Ok(lists)
}

/// Makes this room in the lists of each processor.
fn reserve_each(lists: &mut Vec<Lists>, headroom: usize, wanted: usize) -> Result<(), AllocError>
    requires roomy { (p : ℕ) (l : ALists) → slice_get lists.old.items p ≡ Some l →
        IsRoomy headroom l }
    ensures index { (seq_nos : List ℕ) (place : ℕ → APlace) →
        IsIndexOf seq_nos place lists.old.items → IsIndexOf seq_nos place lists.new.items }
    ensures len { length lists.new.items ≡ length lists.old.items }
    ensures roomy { (p : ℕ) (l : ALists) → slice_get lists.new.items p ≡ Some l →
        IsRoomy headroom l }
    ensures ok { OnOk result ((p : ℕ) (l : ALists) → slice_get lists.new.items p ≡ Some l →
        IsRoomy wanted l) }
    ensures below { (n : ℕ) → ((p : ℕ) (l : ALists) → slice_get lists.old.items p ≡ Some l →
        IsBelow n l) → (p : ℕ) (l : ALists) → slice_get lists.new.items p ≡ Some l → IsBelow n l }
{
    for on in 0..lists.len() {
        lists[on].reserve(wanted)?;
    }
    Ok(())
}

/// Makes this room in the lists of one processor, besides the room that all have.
fn reserve_one(
    lists: &mut Vec<Lists>,
    headroom: usize,
    on: usize,
    additional: usize,
) -> Result<(), AllocError>
    requires within { on < length lists.old.items }
    requires roomy { (p : ℕ) (l : ALists) → slice_get lists.old.items p ≡ Some l →
        IsRoomy headroom l }
    ensures index { (seq_nos : List ℕ) (place : ℕ → APlace) →
        IsIndexOf seq_nos place lists.old.items → IsIndexOf seq_nos place lists.new.items }
    ensures len { length lists.new.items ≡ length lists.old.items }
    ensures roomy { (p : ℕ) (l : ALists) → slice_get lists.new.items p ≡ Some l →
        IsRoomy headroom l }
    ensures ok { OnOk result (IfSome (slice_get lists.new.items on)
        (IsRoomy (headroom + additional))) }
    ensures below { (n : ℕ) → ((p : ℕ) (l : ALists) → slice_get lists.old.items p ≡ Some l →
        IsBelow n l) → (p : ℕ) (l : ALists) → slice_get lists.new.items p ≡ Some l → IsBelow n l }
{
    let Some(wanted) = headroom.checked_add(additional) else {
        return Err(AllocError);
    };
    lists[on].reserve(wanted)
}

fn oldest_of<L: Ledger>(lists: &Vec<Lists>, on: usize, ticks: &mut Ticks<L>) -> Option<u64>
    ensures index { (seq_nos : List ℕ) (place : ℕ → APlace) →
        IsIndexOf seq_nos place lists.now.items → on < length lists.now.items →
        result ≡ first_of (λ n. is_ready_on (place n) on) seq_nos }
    ensures ticks { ticks.new ≤ ticks.old + 1 }
{
    if on >= lists.len() {
        return None;
    }
    let ready = &lists[on].ready;
    if ready.len() == 0 {
        return None;
    }
    Some(ready.at(0, ticks))
}

fn next_of<L: Ledger>(lists: &Vec<Lists>, ticks: &mut Ticks<L>) -> Option<(usize, u64)>
    ensures index { (seq_nos : List ℕ) (place : ℕ → APlace) →
        IsIndexOf seq_nos place lists.now.items → Climbs seq_nos →
        AllByRecursion (λ n. (place n).on < length lists.now.items) seq_nos →
        option_map (λ e. e.1) result ≡ first_of (λ n. (place n).is_ready) seq_nos }
    ensures placed { (seq_nos : List ℕ) (place : ℕ → APlace) →
        IsIndexOf seq_nos place lists.now.items → IsPlaced place result }
    ensures ticks { ticks.new ≤ ticks.old + length lists.now.items }
{
    let mut best = None;
    for on in 0..lists.len() {
        let here = oldest_of(lists, on, ticks);
        best = earlier_of(best, on, here);
    }
    best
}

/// The earlier of the best number so far and one on this processor.
fn earlier_of(best: Option<(usize, u64)>, on: usize, here: Option<u64>) -> Option<(usize, u64)>
    ensures seq_no { option_map (λ e. e.1) result ≡ earlier (option_map (λ e. e.1) best) here }
    ensures placed { (place : ℕ → APlace) → IsPlaced place best →
        IfSome here (λ n. (place n).on ≡ on) → IsPlaced place result }
{
    let Some(number) = here else {
        return best;
    };
    let Some((place, first)) = best else {
        return Some((on, number));
    };
    if number < first {
        return Some((on, number));
    }
    Some((place, first))
}

/// Whether none of the lists has a ready sequence number.
fn none_ready(lists: &Vec<Lists>) -> bool
    ensures { (seq_nos : List ℕ) (place : ℕ → APlace) →
        IsIndexOf seq_nos place lists.now.items →
        AllByRecursion (λ n. (place n).on < length lists.now.items) seq_nos →
        result ≡ is_none (first_of (λ n. (place n).is_ready) seq_nos) }
{
    for on in 0..lists.len() {
        if lists[on].ready.len() > 0 {
            return false;
        }
    }
    true
}
