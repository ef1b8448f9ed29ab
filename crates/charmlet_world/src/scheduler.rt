//! The pending messages, the readiness of each element, and which messages can be delivered where.

ghost use Rattle.std.specs.Prelude.{◌≡◌, ℕ, ◌+◌, ◌<◌, ◌≤◌, [], ◌∷◌, ◌++◌, length, true, is_none, is_some, slice_get, Some, None, IfOk, IfSome, IsOk, IsSome, OnOk, OnErr, unwrap_or, if◌then◌else◌};
ghost use Rattle.std.specs.BTreeMap.{insert_entry, is_at};
ghost use Rattle.std.specs.Map.{keys_of, lookup};
ghost use Rattle.charmlet_ready_queue.specs.SeqNos.SeqNos.{Climbs};
ghost use Rattle.charmlet_ready_queue.specs.Index.Index.{HaveRoom, IsIndexOf};
ghost use Rattle.charmlet_ready_queue.specs.declared.index.place.QueuePlace.{QueuePlace as APlace};
ghost use Rattle.charmlet_ready_queue.specs.declared.index.place.Readiness.{Readiness as AReadiness};
ghost use Rattle.charmlet_locate.specs.Locations.{is_processor_count};
ghost use Rattle.charmlet_model.specs.Core.{home};
ghost use Rattle.charmlet_model.specs.Fit.{AreDistinct};
ghost use Rattle.charmlet_model.specs.Names.{elem_cmp};
ghost use Rattle.charmlet_model.specs.World.{message_among, without};
ghost use Rattle.charmlet_model.specs.declared.names.Elem.{Elem as AnElem};
ghost use Rattle.charmlet_world.specs.Changed.{counted, with_entry};
ghost use Rattle.charmlet_world.specs.Seen.{IsSlot, Seen, element_at, next_due, oldest, oldest_on};
ghost use Rattle.charmlet_world.specs.Standing.{risen};
ghost use Rattle.charmlet_world.specs.Tied.{ArePlacedBy, DiffersAt, IsCalled, IsIndexed, Takes, calls_down, readiness_at, readiness_of};
ghost use Rattle.charmlet_world.specs.declared.element.Element.{Element as AnElement};

use crate::element::Element;
use crate::elements::{Elements, Slot};
use crate::pending::{Pending, Taken};
use charmlet_locate::home;
use charmlet_model::{CONSTRUCT, Elem, Message, MsgId};
use charmlet_ready_queue::{Index, Readiness, Ticks};
use std::alloc::{AllocError, Global};
use std::collections::BTreeMap;
use std::marker::Model;
use std::sync::ledger::Ledger;

/// A delivered message, and how many messages its receiver had sent before.
#[derive(Drop)]
pub(crate) struct Delivered {
    pub(crate) message: Message,
    pub(crate) sent: u64,
}

/// A message that was taken out, and the home of its receiver.
#[derive(Drop)]
struct Removed {
    message: Message,
    at_home: u16,
}

/// The pending messages, each element's place and counts, and an index of both: the sequence
/// numbers of the messages that can be delivered on each processor, and of those that wait there. A
/// contract sees the messages, the elements' rows, and the room for more messages.
#[derive(Drop)]
pub(crate) struct Scheduler {
    /// How many processors there are, 1 to 64. They count from 0.
    processors: u16,
    elements: Elements,
    pending: Pending,
    index: Index,
}

impl Model for Scheduler {
    ghost use Rattle.charmlet_world.specs.Envelopes.{smaller};
    ghost use Rattle.charmlet_world.specs.Tied.{Scheduled, IsTied};

    ghost Value = { Scheduled };

    ghost view = { λ d. record {
      processors = d.processors;
      rows = d.elements.entries;
      pending = d.pending.messages;
      room = smaller d.pending.room d.index.headroom;
    } };

    ghost invariant = { λ d. IsTied d.processors d.elements.entries d.pending d.index };
}

impl Scheduler {
    /// A scheduler with no messages and no elements. It takes no memory.
    pub(crate) fn new(alloc: Global, processors: u16) -> Self
        requires { is_processor_count processors ≡ true }
        ensures processors { result.processors ≡ processors }
        ensures rows { result.rows ≡ [] }
        ensures pending { result.pending ≡ [] }
    {
        Scheduler {
            processors,
            elements: Elements::new(alloc),
            pending: Pending::new(alloc),
            index: Index::new(alloc),
        }
    }

    /// A scheduler with no messages, and with these elements, all on existing processors. It takes
    /// no memory.
    fn with(alloc: Global, processors: u16, elements: Elements) -> Self
        requires processors { is_processor_count processors ≡ true }
        requires places { (x : AnElem) →
            IfSome (element_at (risen elements.entries) x).place (λ p. p < processors) }
        ensures processors { result.processors ≡ processors }
        ensures rows { result.rows ≡ elements.entries }
        ensures pending { result.pending ≡ [] }
    {
        Scheduler {
            processors,
            elements,
            pending: Pending::new(alloc),
            index: Index::new(alloc),
        }
    }

    /// A scheduler with these elements and messages. It fails only when out of memory.
    pub(crate) fn of(
        alloc: Global,
        processors: u16,
        elements: BTreeMap<Elem, Element>,
        messages: Vec<Message>,
    ) -> Result<Self, AllocError>
        requires processors { is_processor_count processors ≡ true }
        requires distinct { AreDistinct messages.items }
        requires places { (x : AnElem) →
            IfSome (element_at elements.entries x).place (λ p. p < processors) }
        ensures processors { IfOk result (λ scheduler. scheduler.processors ≡ processors) }
        ensures rows { IfOk result (λ scheduler. risen scheduler.rows ≡ elements.entries) }
        ensures pending { IfOk result (λ scheduler. scheduler.pending ≡ messages.items) }
    {
        let elements = Elements::of_tree(alloc, elements)?;
        let mut scheduler = Scheduler::with(alloc, processors, elements);
        scheduler.reserve(messages.len())?;
        for message in messages {
            scheduler.push(message);
        }
        Ok(scheduler)
    }

    /// How many processors there are.
    pub(crate) fn processors(&self) -> u16
        ensures count { result ≡ self.now.processors }
        ensures few { is_processor_count result ≡ true }
    {
        self.processors
    }

    /// Each element's place and counts.
    pub(crate) fn elements(&self) -> &Elements
        ensures { result.now.entries ≡ self.now.rows }
    {
        &self.elements
    }

    /// The pending messages.
    pub(crate) fn pending(&self) -> &Pending
        ensures { result.now.messages ≡ self.now.pending }
    {
        &self.pending
    }

    /// Makes room for this many more messages. If memory is refused, nothing changes.
    pub(crate) fn reserve(&mut self, additional: usize) -> Result<(), AllocError>
        ensures processors { self.new.processors ≡ self.old.processors }
        ensures rows { self.new.rows ≡ self.old.rows }
        ensures pending { self.new.pending ≡ self.old.pending }
        ensures room { self.old.room ≤ self.new.room }
        ensures ok { OnOk result (additional ≤ self.new.room) }
    {
        self.index.open(self.processors as usize)?;
        self.pending.reserve(additional)?;
        self.index.reserve(additional)
    }

    /// Adds a message. There has to be room for it. It takes no memory.
    pub(crate) fn push(&mut self, message: Message)
        requires room { 0 < self.old.room }
        requires apart { message_among message.id self.old.pending ≡ None }
        ensures processors { self.new.processors ≡ self.old.processors }
        ensures rows { self.new.rows ≡ self.old.rows }
        ensures pending { self.new.pending ≡ self.old.pending ++ message ∷ [] }
        ensures room { self.old.room ≤ self.new.room + 1 }
    {
        let element = self.elements.expect(message.to);
        let readiness = readiness_of(self.processors, message.to, &element);
        let seq = self.index.push(readiness.place(message.entry == CONSTRUCT));
        // The count of messages to an element mostly has the same index as its row.
        self.pending.push_to(message, seq, self.elements.expected());
    }

    /// The slot of an element, which gets one if it has none. If memory is refused, nothing
    /// changes.
    pub(crate) fn slot_for(&mut self, elem: Elem) -> Result<Slot, AllocError>
        ensures slot { IfOk result (λ slot. IsSlot self.new.rows slot elem) }
        ensures risen { OnOk result (risen self.new.rows
            ≡ with_entry (risen self.old.rows) elem) }
        ensures processors { self.new.processors ≡ self.old.processors }
        ensures pending { self.new.pending ≡ self.old.pending }
        ensures room { self.new.room ≡ self.old.room }
        ensures slots { (i : ℕ) (x : AnElem) (e : AnElement) →
            slice_get self.old.rows i ≡ Some (x, e) → slice_get self.new.rows i ≡ Some (x, e) }
        ensures there { is_some (lookup (is_at (elem_cmp elem)) (risen self.old.rows)) ≡ true →
            IsOk result }
        ensures err { OnErr result (self.new ≡ self.old) }
    {
        self.elements.slot_for(elem)
    }

    /// Delivers a pending message, whose receiver sends this many messages and is destroyed or not:
    /// the message leaves, and its receiver advances. It takes no memory.
    pub(crate) fn deliver(
        &mut self,
        slot: Slot,
        id: MsgId,
        sends: u64,
        is_destroyed: bool,
    ) -> Delivered
        requires room { 0 < self.old.room }
        requires pending { IsSome (message_among id self.old.pending) }
        requires takes { IfSome (message_among id self.old.pending)
            (λ m. Takes self.old.rows slot sends m.to) }
        ensures message { message_among id self.old.pending ≡ Some result.message }
        ensures sent { result.sent
            ≡ (element_at (risen self.old.rows) result.message.to).sent }
        ensures risen { risen self.new.rows
            ≡ insert_entry elem_cmp (risen self.old.rows) result.message.to
            (counted (element_at (risen self.old.rows) result.message.to)
            (if is_destroyed then None
            else Some (unwrap_or (element_at (risen self.old.rows) result.message.to).place
            (home result.message.to self.old.processors))) sends) }
        ensures keys { keys_of self.new.rows ≡ keys_of self.old.rows }
        ensures processors { self.new.processors ≡ self.old.processors }
        ensures pending { self.new.pending ≡ without id self.old.pending }
        ensures room { self.old.room ≤ self.new.room }
    {
        let Removed { message, at_home } = self.take(slot, id);
        let sent = self.advance(slot, message.to, at_home, sends, is_destroyed);
        Delivered { message, sent }
    }

    /// Advances the element in this slot, which has this home, by one received message and this
    /// many sends, and by its destruction, if it is destroyed. Returns how many messages it had
    /// sent before. It takes no memory.
    fn advance(
        &mut self,
        slot: Slot,
        elem: Elem,
        at_home: u16,
        sends: u64,
        is_destroyed: bool,
    ) -> u64
        requires home { at_home ≡ home elem self.old.processors }
        requires room { 0 < self.old.room }
        requires takes { Takes self.old.rows slot sends elem }
        ensures sent { result ≡ (element_at (risen self.old.rows) elem).sent }
        ensures risen { risen self.new.rows
            ≡ insert_entry elem_cmp (risen self.old.rows) elem
            (counted (element_at (risen self.old.rows) elem)
            (if is_destroyed then None
            else Some (unwrap_or (element_at (risen self.old.rows) elem).place
            (home elem self.old.processors))) sends) }
        ensures keys { keys_of self.new.rows ≡ keys_of self.old.rows }
        ensures processors { self.new.processors ≡ self.old.processors }
        ensures pending { self.new.pending ≡ self.old.pending }
        ensures room { self.new.room ≡ self.old.room }
    {
        let element = self.elements.at(slot);
        let place = place_after(at_home, &element, is_destroyed);
        let mut advanced = element;
        advanced.advance(place, sends);
        let old = readiness_at(at_home, &element);
        let new = readiness_at(at_home, &advanced);
        update_readiness(&self.pending, &mut self.index, elem, old, new);
        self.elements.set(slot, advanced);
        element.sent
    }

    /// Takes out a pending message, whose receiver has this slot, with the receiver's home. It
    /// takes no memory.
    fn take(&mut self, slot: Slot, id: MsgId) -> Removed
        requires pending { IsSome (message_among id self.old.pending) }
        requires receiver { IfSome (message_among id self.old.pending)
            (λ m. IsSlot self.old.rows slot m.to) }
        ensures message { message_among id self.old.pending ≡ Some result.message }
        ensures home { result.at_home ≡ home result.message.to self.old.processors }
        ensures rows { self.new.rows ≡ self.old.rows }
        ensures processors { self.new.processors ≡ self.old.processors }
        ensures pending { self.new.pending ≡ without id self.old.pending }
        ensures room { self.old.room ≤ self.new.room }
    {
        let Some(taken) = self.pending.take(id) else {
            unreachable!()
        };
        let Taken { seq, message } = taken;
        let element = self.elements.at(slot);
        let at_home = home_of(self.processors, message.to);
        let readiness = readiness_at(at_home, &element);
        self.index
            .take(seq, readiness.place(message.entry == CONSTRUCT));
        Removed { message, at_home }
    }

    /// Moves a present element to the processor. It takes no memory if no message to it is pending.
    /// If memory is refused, nothing changes.
    pub(crate) fn relocate(&mut self, elem: Elem, processor: u16) -> Result<(), AllocError>
        requires there { is_some (element_at (risen self.old.rows) elem).place ≡ true }
        requires processor { processor < self.old.processors }
        ensures risen { OnOk result (risen self.new.rows
            ≡ insert_entry elem_cmp (risen self.old.rows) elem
            (record (element_at (risen self.old.rows) elem) { place = Some processor })) }
        ensures keys { keys_of self.new.rows ≡ keys_of self.old.rows }
        ensures processors { self.new.processors ≡ self.old.processors }
        ensures pending { self.new.pending ≡ self.old.pending }
        ensures room { self.new.room ≡ self.old.room }
        ensures err { OnErr result (self.new ≡ self.old) }
    {
        let Some(slot) = self.elements.slot_of(elem) else {
            unreachable!()
        };
        let element = self.elements.at(slot);
        let mut moved = element;
        moved.place = Some(processor);
        let old = readiness_of(self.processors, elem, &element);
        let new = readiness_of(self.processors, elem, &moved);
        carry(&self.pending, &mut self.index, elem, old, new)?;
        self.elements.set(slot, moved);
        Ok(())
    }

    /// The oldest message on the processor that can be delivered. It takes at most one look.
    pub(crate) fn oldest_on<L: Ledger>(&self, processor: u16, ticks: &mut Ticks<L>) -> Option<MsgId>
        ensures oldest { (k : Seen) → k.processors ≡ self.now.processors →
            k.elements ≡ risen self.now.rows →
            result ≡ oldest_on k processor self.now.pending }
        ensures ticks { ticks.new ≤ ticks.old + 1 }
    {
        if processor >= self.processors {
            return None;
        }
        if self.pending.len() == 0 {
            return None;
        }
        let Some(number) = self.index.oldest_on(processor as usize, ticks) else {
            return None;
        };
        let Some((id, _pending_message)) = self.pending.find_seq(number) else {
            return None;
        };
        Some(id)
    }

    /// The oldest message that can be delivered, together with the processor of its receiver, or
    /// its home if it isn't there. It takes at most one look for each processor.
    pub(crate) fn next_in<L: Ledger>(&self, ticks: &mut Ticks<L>) -> Option<(u16, MsgId)>
        ensures next { (k : Seen) → k.processors ≡ self.now.processors →
            k.elements ≡ risen self.now.rows → result ≡ next_due k self.now.pending }
        ensures ticks { ticks.new ≤ ticks.old + self.now.processors }
    {
        let Some((on, number)) = self.index.next_in(ticks) else {
            return None;
        };
        let Some((id, _pending_message)) = self.pending.find_seq(number) else {
            return None;
        };
        Some((on as u16, id))
    }

    /// Answers as `next_in`, with a count of looks of its own. It takes no memory.
    pub(crate) fn next(&self) -> Option<(u16, MsgId)>
        ensures { (k : Seen) → k.processors ≡ self.now.processors →
            k.elements ≡ risen self.now.rows → result ≡ next_due k self.now.pending }
    {
        let Some((on, number)) = self.index.next() else {
            return None;
        };
        let Some((id, _pending_message)) = self.pending.find_seq(number) else {
            return None;
        };
        Some((on as u16, id))
    }

    /// Whether none of the messages can be delivered. It takes no memory.
    pub(crate) fn quiet(&self) -> bool
        ensures { (k : Seen) → k.processors ≡ self.now.processors →
            k.elements ≡ risen self.now.rows → result ≡ is_none (oldest k self.now.pending) }
    {
        self.index.quiet()
    }

    /// Looks for the oldest message that can be delivered and for its receiver, since that message
    /// is mostly delivered next. The messages and the elements stay the same.
    pub(crate) fn hint_head(&mut self)
        ensures { self.new ≡ self.old }
    {
        let Some((_on, number)) = self.index.next() else {
            return;
        };
        if let Some(to) = self.pending.expect(number) {
            self.elements.expect(to);
        }
    }
}

/// Moves the sequence numbers of the messages to an element whose readiness changes from `old` to
/// `new`. There is room for them: on a processor for which they didn't count before, that room was
/// made. It takes no memory.
fn update_readiness(pending: &Pending, index: &mut Index, to: Elem, old: Readiness, new: Readiness)
    requires old_on { old.on < length index.old.lists }
    requires new_on { new.on < length index.old.lists }
    requires old_home { old.home < length index.old.lists }
    requires new_home { new.home < length index.old.lists }
    requires called { IsCalled to old pending.now.seq_nos pending.now.messages index.old.lists }
    requires room { HaveRoom index.old.headroom old new
        (length (calls_down to pending.now.seq_nos pending.now.messages)) index.old.lists }
    ensures index { (place : ℕ → APlace) (stands news : AnElem → AReadiness) →
        ArePlacedBy stands place pending.now.seq_nos pending.now.messages →
        IsIndexOf pending.now.seq_nos place index.old.lists → Climbs pending.now.seq_nos →
        stands to ≡ old → news to ≡ new → DiffersAt to stands news →
        IsIndexed news pending.now.seq_nos pending.now.messages index.new.lists }
    ensures len { length index.new.lists ≡ length index.old.lists }
    ensures next { index.new.next ≡ index.old.next }
    ensures headroom { index.new.headroom ≡ index.old.headroom }
{
    if is_same_readiness(&old, &new) {
        return;
    }
    let count = pending.count_to(to);
    if count == 0 {
        return;
    }
    let mut calls = pending.calls(to);
    index.update_readiness(&mut calls, old, new);
}

/// Moves the sequence numbers as `update_readiness` does, and makes the room for them first. If
/// memory is refused, no sequence number changes.
fn carry(
    pending: &Pending,
    index: &mut Index,
    to: Elem,
    old: Readiness,
    new: Readiness,
) -> Result<(), AllocError>
    requires old_on { 0 < length pending.now.seq_nos → old.on < length index.old.lists }
    requires new_on { 0 < length pending.now.seq_nos → new.on < length index.old.lists }
    requires old_home { 0 < length pending.now.seq_nos → old.home < length index.old.lists }
    requires home { new.home ≡ old.home }
    requires called { IsCalled to old pending.now.seq_nos pending.now.messages index.old.lists }
    ensures ok { OnOk result ((place : ℕ → APlace) (stands news : AnElem → AReadiness) →
        ArePlacedBy stands place pending.now.seq_nos pending.now.messages →
        IsIndexOf pending.now.seq_nos place index.old.lists → Climbs pending.now.seq_nos →
        stands to ≡ old → news to ≡ new → DiffersAt to stands news →
        IsIndexed news pending.now.seq_nos pending.now.messages index.new.lists) }
    ensures err { OnErr result ((place : ℕ → APlace) →
        IsIndexOf pending.now.seq_nos place index.old.lists →
        IsIndexOf pending.now.seq_nos place index.new.lists) }
    ensures len { length index.new.lists ≡ length index.old.lists }
    ensures next { index.new.next ≡ index.old.next }
    ensures headroom { index.new.headroom ≡ index.old.headroom }
{
    let count = pending.count_to(to);
    if count == 0 {
        return Ok(());
    }
    index.reserve_on(new.on, count)?;
    update_readiness(pending, index, to, old, new);
    Ok(())
}

/// The readiness of an element with this place and these counts.
fn readiness_of(processors: u16, elem: Elem, element: &Element) -> Readiness
    requires { is_processor_count processors ≡ true }
    ensures { result ≡ readiness_of processors elem element.now }
{
    readiness_at(home_of(processors, elem), element)
}

/// The readiness of an element with this home, this place and these counts.
fn readiness_at(at_home: u16, element: &Element) -> Readiness
    ensures { result ≡ readiness_at at_home element.now }
{
    let on = match element.place {
        Some(place) => place,
        None => at_home,
    };
    Readiness {
        on: on as usize,
        home: at_home as usize,
        is_there: element.place.is_some(),
        has_room: element.has_room(),
    }
}

/// Whether an element's readiness is the same as before.
fn is_same_readiness(old: &Readiness, new: &Readiness) -> bool
    ensures { result ≡ true → new.now ≡ old.now }
{
    old.on == new.on
        && old.home == new.home
        && old.is_there == new.is_there
        && old.has_room == new.has_room
}

/// The home of an element.
fn home_of(processors: u16, elem: Elem) -> u16
    requires { is_processor_count processors ≡ true }
    ensures { result ≡ home elem processors }
{
    let Ok(home) = home(elem, processors) else {
        unreachable!()
    };
    home
}

/// The place of an element, or its home if it has none.
pub(crate) fn place_in(processors: u16, elem: Elem, place: Option<u16>) -> u16
    requires { is_processor_count processors ≡ true }
    ensures { result ≡ unwrap_or place (home elem processors) }
{
    match place {
        Some(place) => place,
        None => home_of(processors, elem),
    }
}

/// The place after a delivery of an element with this home and this former row: nowhere, if the
/// delivery destroyed it.
fn place_after(at_home: u16, element: &Element, is_destroyed: bool) -> Option<u16>
    ensures { result ≡ (if is_destroyed then None
        else Some (unwrap_or element.now.place at_home)) }
{
    if is_destroyed {
        return None;
    }
    Some(element.place.unwrap_or(at_home))
}
