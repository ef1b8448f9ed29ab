//! The present world.

ghost use Rattle.std.specs.Prelude.{◌≡◌, ℕ, ◌+◌, ◌<◌, ◌≤◌, [], ◌∷◌, List, length, true, is_none, is_some, option_map, option_copied, slice_get, Some, None, IfOk, IfSome, OnOk, OnErr, IsSome, IsOk, unwrap_or};
ghost use Rattle.std.specs.BTreeMap.{is_at};
ghost use Rattle.std.specs.Map.{keys_of, lookup, values_of};
ghost use Rattle.std.specs.Ordering.{nat_cmp};
ghost use Rattle.charmlet_model.specs.Core.{has_words, home};
ghost use Rattle.charmlet_model.specs.Sound.{new_world};
ghost use Rattle.charmlet_model.specs.Fit.{AreDistinct};
ghost use Rattle.charmlet_model.specs.Told.{told_of};
ghost use Rattle.charmlet_model.specs.Upgrade.{up_manifest};
ghost use Rattle.charmlet_model.specs.Names.{elem_cmp};
ghost use Rattle.charmlet_model.specs.World.{World as AWorld, after, message_among};
ghost use Rattle.charmlet_model.specs.declared.event.Event.TheVariants.{Accept, Deliver};
ghost use Rattle.charmlet_model.specs.declared.names.Elem.{Elem as AnElem};
ghost use Rattle.charmlet_model.specs.declared.names.Origin.TheVariants as origins;
ghost use Rattle.charmlet_locate.specs.Locations.{is_processor_count};
ghost use Rattle.charmlet_world.specs.declared.element.Element.{Element as AnElement};
ghost use Rattle.charmlet_world.specs.Changed.{IsOutputOf, Suits, accepted, delivered_in, flushed_row, relocated, with_entry};
ghost use Rattle.charmlet_world.specs.Seen.{IsSlot, Shows, client_at, element_at, next_due, oldest, oldest_on, place_or_home_in, seen};
ghost use Rattle.charmlet_world.specs.Standing.{left_of, places_of, risen};
ghost use Rattle.charmlet_world.specs.Waiting.{message_of};

use crate::client::Client;
use crate::clients::{flush_row, keep_reply, note_request};
use crate::element::Element;
use crate::elements::Slot;
use crate::messages::Messages;
use crate::pending_message::PendingMessage;
use crate::scheduler::{Delivered, Scheduler, place_in};
use crate::sends::push_sends;
use charmlet_chare::Output;
use charmlet_model::{ClientRow, Elem, MAX_SENDS, Manifest, Message, MsgId, Origin, Told, Words};
use charmlet_ready_queue::Ticks;
use std::alloc::{AllocError, Global};
use std::collections::BTreeMap;
use std::marker::Model;
use std::sync::ledger::Ledger;

/// The present world without its objects: the place and counts of each element, the pending
/// messages in order of arrival, and the clients' rows in the present and in the durable world. A
/// contract sees all of these, and how many deliveries there is room for.
pub struct PresentWorld {
    manifest: Manifest,
    scheduler: Scheduler,
    clients: BTreeMap<u32, Client>,
    /// How many deliveries have room for everything that they may send.
    promised: usize,
}

impl Model for PresentWorld {
    ghost use Rattle.charmlet_world.specs.Seen.{HasRoom, Held};

    ghost Value = { Held };

    ghost view = { λ w. record {
      manifest = w.manifest;
      processors = w.scheduler.processors;
      rows = w.scheduler.rows;
      pending = w.scheduler.pending;
      clients = w.clients.entries;
      promised = w.promised;
    } };

    ghost invariant = { λ w. HasRoom w.scheduler.processors w.promised w.scheduler.room };
}

// Written by hand, so that dropping all its fields is proved here, and not in each crate that drops
// a present world.
impl Drop for PresentWorld {
    fn drop(self) {
        let PresentWorld {
            manifest,
            scheduler,
            clients,
            promised: _,
        } = self;
        drop(manifest);
        drop(scheduler);
        drop(clients);
    }
}

impl PresentWorld {
    /// A world with these arrays and `processors` processors, in which nothing has happened. It
    /// takes no memory.
    pub fn new(alloc: Global, manifest: Manifest, processors: u16) -> Self
        requires { is_processor_count processors ≡ true }
        ensures empty { result ≡ record {
          manifest = manifest;
          processors = processors;
          rows = [];
          pending = [];
          clients = [];
          promised = 0;
        } }
        ensures world { Shows (seen result) (new_world manifest) }
    {
        PresentWorld {
            manifest,
            scheduler: Scheduler::new(alloc, processors),
            clients: BTreeMap::new(alloc),
            promised: 0,
        }
    }

    /// A world with these arrays, this number of processors, and these elements, pending messages
    /// and clients. It fails only when out of memory.
    pub fn of(
        alloc: Global,
        manifest: Manifest,
        processors: u16,
        elements: BTreeMap<Elem, Element>,
        pending: Vec<Message>,
        clients: BTreeMap<u32, Client>,
    ) -> Result<Self, AllocError>
        requires processors { is_processor_count processors ≡ true }
        requires distinct { AreDistinct pending.items }
        requires places { (x : AnElem) →
            IfSome (element_at elements.entries x).place (λ p. p < processors) }
        ensures seen { IfOk result (λ world. seen world
            ≡ record {
              manifest = manifest;
              processors = processors;
              elements = elements.entries;
              pending = pending.items;
              clients = clients.entries;
            }) }
        ensures promised { IfOk result (λ world. world.promised ≡ 0) }
    {
        Ok(PresentWorld {
            manifest,
            scheduler: Scheduler::of(alloc, processors, elements, pending)?,
            clients,
            promised: 0,
        })
    }

    /// Brings the world forward to the newest versions of its kinds. It takes no memory.
    pub fn upgrade(&mut self)
        ensures { self.new ≡ record self.old { manifest = up_manifest self.old.manifest } }
    {
        self.manifest.upgrade();
    }

    /// The kind version of each array.
    pub fn manifest(&self) -> &Manifest
        ensures { result.now ≡ self.now.manifest }
    {
        &self.manifest
    }

    /// How many messages are pending.
    pub fn pending_count(&self) -> usize
        ensures { result ≡ length self.now.pending }
    {
        self.scheduler.pending().len()
    }

    /// The pending messages, in order of arrival. It takes no memory.
    pub fn messages(&self) -> Messages<'_>
        ensures { result ≡ self.now.pending }
    {
        self.scheduler.pending().iter()
    }

    /// The pending message of this id, if there is one.
    #[inline(always)]
    pub fn find(&self, id: MsgId) -> Option<&PendingMessage>
        ensures { option_map (λ pending_message. message_of id pending_message.now) result
            ≡ message_among id self.now.pending }
    {
        self.scheduler.pending().find(id)
    }

    /// The place and counts of an element.
    pub fn element(&self, elem: Elem) -> Element
        ensures { result ≡ element_at (seen self.now).elements elem }
    {
        self.scheduler.elements().element(elem)
    }

    /// The place and counts in this slot.
    pub fn at(&self, slot: Slot) -> Element
        requires { slot < length self.now.rows }
        ensures { slice_get (values_of self.now.rows) slot ≡ Some result }
    {
        self.scheduler.elements().at(slot)
    }

    /// How many processors there are, 1 to 64.
    pub fn processors(&self) -> u16
        ensures count { result ≡ self.now.processors }
        ensures few { is_processor_count result ≡ true }
    {
        self.scheduler.processors()
    }

    /// The processor of an element with this place and these counts, or its home if it isn't there.
    pub fn place_of(&self, elem: Elem, element: &Element) -> u16
        ensures { result ≡ unwrap_or element.now.place (home elem self.now.processors) }
    {
        place_in(self.scheduler.processors(), elem, element.place)
    }

    /// The processor of an element, or its home if it isn't there.
    pub fn place_or_home(&self, elem: Elem) -> u16
        ensures { result ≡ place_or_home_in (seen self.now) elem }
    {
        place_in(self.scheduler.processors(), elem, self.element(elem).place)
    }

    /// How many elements have a row: each that is there, and each that ever received a message.
    pub fn element_count(&self) -> usize
        ensures rows { result ≡ length self.now.rows }
        ensures elements { result ≡ length (seen self.now).elements }
    {
        self.scheduler.elements().len()
    }

    /// A copy of each element's place and counts, in rising order. It sorts, and fails only when
    /// out of memory.
    pub fn rising(&self, alloc: Global) -> Result<BTreeMap<Elem, Element>, AllocError>
        ensures { IfOk result (λ tree. tree.entries ≡ (seen self.now).elements) }
    {
        self.scheduler.elements().rising(alloc)
    }

    /// A copy of the place and counts of each element that isn't there and has received a message,
    /// in rising order of the elements. It fails only when out of memory.
    pub fn left(&self, alloc: Global) -> Result<BTreeMap<Elem, Element>, AllocError>
        ensures { IfOk result (λ tree. tree.entries ≡ left_of (seen self.now).elements) }
    {
        self.scheduler.elements().left(alloc)
    }

    /// The processor of each element that is there, in rising order of the elements. It fails only
    /// when out of memory, and takes none if no element is there.
    pub fn places(&self, alloc: Global) -> Result<BTreeMap<Elem, u16>, AllocError>
        ensures places { IfOk result (λ tree. tree.entries ≡ places_of (seen self.now).elements) }
        ensures nothing { places_of (seen self.now).elements ≡ [] → IsOk result }
    {
        self.scheduler.elements().places(alloc)
    }

    /// A client's rows, if it made a request.
    pub fn client(&self, client: u32) -> Option<&Client>
        ensures { option_copied result ≡ lookup (is_at (nat_cmp client)) self.now.clients }
    {
        self.clients.get(&client)
    }

    /// Each client that made a request, with its rows.
    pub fn clients(&self) -> &BTreeMap<u32, Client>
        ensures { result.now.entries ≡ self.now.clients }
    {
        &self.clients
    }

    /// What a client's durable row tells it about request `number`. It fails only when out of
    /// memory, and takes none if the answer has no words.
    pub fn told(&self, alloc: Global, client: u32, number: u64) -> Result<Told, AllocError>
        ensures told { IfOk result (λ told. told
            ≡ told_of (client_at self.now.clients client).durable number) }
        ensures words { OnErr result (has_words
            (told_of (client_at self.now.clients client).durable number) ≡ true) }
    {
        match self.clients.get(&client) {
            Some(client) => client.told(alloc, number),
            None => ClientRow::new().told(alloc, number),
        }
    }

    /// The oldest pending message that can be delivered: its receiver is there or is constructed,
    /// and has room in its counts.
    pub fn oldest(&self) -> Option<MsgId>
        ensures { result ≡ oldest (seen self.now) self.now.pending }
    {
        let Some((_processor, id)) = self.scheduler.next() else {
            return None;
        };
        Some(id)
    }

    /// The oldest pending message on the processor that can be delivered by the elements' counts.
    /// It takes at most one look.
    pub fn oldest_on<L: Ledger>(&self, processor: u16, ticks: &mut Ticks<L>) -> Option<MsgId>
        ensures oldest { result ≡ oldest_on (seen self.now) processor self.now.pending }
        ensures ticks { ticks.new ≤ ticks.old + 1 }
    {
        self.scheduler.oldest_on(processor, ticks)
    }

    /// The oldest pending message that can be delivered by the elements' counts, together with the
    /// processor of its receiver, or its home if it isn't there. It takes at most one look for each
    /// processor.
    pub fn next_in<L: Ledger>(&self, ticks: &mut Ticks<L>) -> Option<(u16, MsgId)>
        ensures next { result ≡ next_due (seen self.now) self.now.pending }
        ensures ticks { ticks.new ≤ ticks.old + self.now.processors }
    {
        self.scheduler.next_in(ticks)
    }

    /// The oldest pending message that can be delivered by the elements' counts, together with the
    /// processor of its receiver, or its home if it isn't there. It takes no memory.
    pub fn next(&self) -> Option<(u16, MsgId)>
        ensures { result ≡ next_due (seen self.now) self.now.pending }
    {
        self.scheduler.next()
    }

    /// Whether no pending message can be delivered by the elements' counts. It takes no memory.
    pub fn quiet(&self) -> bool
        ensures { result ≡ is_none (oldest (seen self.now) self.now.pending) }
    {
        self.scheduler.quiet()
    }

    /// Accepts a client's request, whose id differs from that of every pending message. The room
    /// for deliveries stays. When out of memory, nothing changes.
    pub fn accept(
        &mut self,
        client: u32,
        number: u64,
        to: Elem,
        entry: u16,
        words: Words,
    ) -> Result<(), AllocError>
        requires apart { message_among (record { origin = origins.Client client; number = number })
            self.old.pending ≡ None }
        ensures ok { OnOk result (seen self.new
            ≡ accepted (seen self.old) client number to entry words) }
        ensures world { OnOk result ((w : AWorld) → Shows (seen self.old) w →
            Shows (seen self.new) (after w (Accept client number to entry words))) }
        ensures rows { self.new.rows ≡ self.old.rows }
        ensures promised { self.new.promised ≡ self.old.promised }
        ensures err { OnErr result (self.new ≡ self.old) }
    {
        self.scheduler.reserve(1 + MAX_SENDS * self.promised)?;
        note_request(&mut self.clients, client, number)?;
        let origin = Origin::Client(client);
        let id = MsgId { origin, number };
        self.scheduler.push(Message {
            id,
            to,
            entry,
            words,
        });
        self.scheduler.hint_head();
        Ok(())
    }

    /// The slot of an element, which gets one if it has none. When out of memory, nothing changes.
    pub fn slot_for(&mut self, elem: Elem) -> Result<Slot, AllocError>
        ensures slot { IfOk result (λ slot. IsSlot self.new.rows slot elem) }
        ensures seen { OnOk result (seen self.new
            ≡ record (seen self.old) { elements = with_entry (seen self.old).elements elem }) }
        ensures promised { self.new.promised ≡ self.old.promised }
        ensures slots { (i : ℕ) (x : AnElem) (e : AnElement) →
            slice_get self.old.rows i ≡ Some (x, e) → slice_get self.new.rows i ≡ Some (x, e) }
        ensures there { is_some (lookup (is_at (elem_cmp elem)) (seen self.old).elements) ≡ true →
            IsOk result }
        ensures err { OnErr result (self.new ≡ self.old) }
    {
        self.scheduler.slot_for(elem)
    }

    /// Makes all the room for the delivery of a pending message, so that its commit takes no
    /// memory, and returns its receiver's slot. There are at most 64 such deliveries at a time.
    /// When out of memory, nothing changes.
    pub fn assign(&mut self, id: MsgId) -> Result<Slot, AllocError>
        requires pending { IsSome (message_among id self.old.pending) }
        requires few { self.old.promised < 64 }
        ensures slot { IfOk result (λ slot.
            IfSome (message_among id self.old.pending) (λ m. IsSlot self.new.rows slot m.to)) }
        ensures seen { OnOk result (IfSome (message_among id self.old.pending)
            (λ m. seen self.new ≡ record (seen self.old) {
              elements = with_entry
                  (seen self.old).elements m.to;
            })) }
        ensures pending { self.new.pending ≡ self.old.pending }
        ensures clients { self.new.clients ≡ self.old.clients }
        ensures promised { OnOk result (self.new.promised ≡ self.old.promised + 1) }
        ensures slots { (i : ℕ) (x : AnElem) (e : AnElement) →
            slice_get self.old.rows i ≡ Some (x, e) → slice_get self.new.rows i ≡ Some (x, e) }
        ensures world { (w : AWorld) → Shows (seen self.old) w → Shows (seen self.new) w }
        ensures err { OnErr result (self.new ≡ self.old) }
    {
        self.scheduler.reserve(MAX_SENDS * (self.promised + 1))?;
        let Some(pending_message) = self.scheduler.pending().find(id) else {
            unreachable!()
        };
        let to = pending_message.to;
        let slot = self.scheduler.slot_for(to)?;
        self.promised += 1;
        Ok(slot)
    }

    /// Gives up the room for one delivery.
    pub fn release(&mut self)
        requires { 0 < self.old.promised }
        ensures seen { seen self.new ≡ seen self.old }
        ensures rows { self.new.rows ≡ self.old.rows }
        ensures promised { self.new.promised + 1 ≡ self.old.promised }
    {
        self.promised -= 1;
    }

    /// Delivers a pending message for which `assign` made room: the message is removed, its
    /// receiver advances, the receiver's sends are appended, and its reply is kept for the client
    /// that asked. It takes no memory.
    pub fn commit(&mut self, slot: Slot, id: MsgId, output: Output)
        requires promised { 0 < self.old.promised }
        requires pending { IsSome (message_among id self.old.pending) }
        requires suits { IfSome (message_among id self.old.pending) (Suits self.old slot output) }
        ensures delivered { IfSome (message_among id self.old.pending)
            (λ m. seen self.new ≡ delivered_in (seen self.old) m output) }
        ensures world { (w : AWorld) → Shows (seen self.old) w → IsOutputOf w id output →
            Shows (seen self.new) (after w (Deliver id)) }
        ensures slots { keys_of self.new.rows ≡ keys_of self.old.rows }
        ensures promised { self.new.promised + 1 ≡ self.old.promised }
    {
        let Output {
            sends,
            reply,
            is_destroyed,
        } = output;
        let sends = sends.into_vec();
        let count = sends.len() as u64;
        let Delivered { message, sent } = self.scheduler.deliver(slot, id, count, is_destroyed);
        push_sends(&mut self.scheduler, message.to, sent, sends);
        keep_reply(&mut self.clients, message.id, reply);
        self.promised -= 1;
        self.scheduler.hint_head();
    }

    /// Moves a present element to the processor. It takes no memory if no message to it is pending.
    /// If memory is refused, nothing changes.
    pub fn relocate(&mut self, elem: Elem, processor: u16) -> Result<(), AllocError>
        requires there { is_some (element_at (seen self.old).elements elem).place ≡ true }
        requires processor { processor < self.old.processors }
        ensures seen { OnOk result (seen self.new ≡ relocated (seen self.old) elem processor) }
        ensures world { (w : AWorld) → Shows (seen self.old) w → Shows (seen self.new) w }
        ensures slots { keys_of self.new.rows ≡ keys_of self.old.rows }
        ensures promised { self.new.promised ≡ self.old.promised }
        ensures err { OnErr result (self.new ≡ self.old) }
    {
        self.scheduler.relocate(elem, processor)?;
        Ok(())
    }

    /// Makes a client's row durable. It takes no memory.
    pub fn flush_client(&mut self, client: u32)
        ensures { self.new ≡ record self.old { clients = flushed_row self.old.clients client } }
    {
        flush_row(&mut self.clients, client);
    }
}
