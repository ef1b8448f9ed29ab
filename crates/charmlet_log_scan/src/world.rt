//! The world of a log scan: the present world, without the index of messages that can be delivered.

ghost use Rattle.std.specs.Prelude.{◌≡◌, [], IfOk, IfSome, IsSome, None, OnErr, OnOk, Some, length, option_copied, option_map, true};
ghost use Rattle.std.specs.BTreeMap.{is_at};
ghost use Rattle.std.specs.Map.{lookup};
ghost use Rattle.std.specs.Ordering.{nat_cmp};
ghost use Rattle.charmlet_locate.specs.Locations.{is_processor_count};
ghost use Rattle.charmlet_model.specs.declared.names.Origin.TheVariants as origins;
ghost use Rattle.charmlet_model.specs.Fit.{AreDistinct};
ghost use Rattle.charmlet_model.specs.World.{message_among};
ghost use Rattle.charmlet_world.specs.Changed.{accepted};
ghost use Rattle.charmlet_world.specs.Seen.{element_at, present_rows};
ghost use Rattle.charmlet_world.specs.Waiting.{message_of};
ghost use Rattle.charmlet_log_scan.specs.World.Deliverable.{CanBeDelivered, delivered_to};

mod advance;
mod queue;
mod rows;

use crate::world::advance::advance;
use crate::world::queue::{make_room, push, push_sends, queue_of};
use crate::world::rows::ClientRows;
use charmlet_model::{ClientRow, Elem, MAX_SENDS, Manifest, Message, MsgId, Origin, Sends, Words};
use charmlet_world::{Client, Element, Elements, Messages, Pending, PendingMessage, Taken};
use std::alloc::{AllocError, Global};
use std::collections::BTreeMap;
use std::marker::Model;

/// The world of a log scan: the place and counts of each element, the pending messages in order of
/// arrival, and the clients' rows. It doesn't find the messages that can be delivered, since a log
/// names them. A contract sees it as a present world.
pub struct ReplayWorld {
    manifest: Manifest,
    /// How many processors there are, 1 to 64. They count from 0.
    processors: u16,
    elements: Elements,
    pending: Pending,
    clients: ClientRows,
}

impl Model for ReplayWorld {
    ghost use Rattle.std.specs.Prelude.{◌≡◌, true};
    ghost use Rattle.charmlet_locate.specs.Locations.{is_processor_count};
    ghost use Rattle.charmlet_world.specs.Seen.{Seen};
    ghost use Rattle.charmlet_world.specs.Standing.{risen};

    ghost Value = { Seen };

    ghost view = { λ w. record {
      manifest = w.manifest;
      processors = w.processors;
      elements = risen w.elements.entries;
      pending = w.pending.messages;
      clients = w.clients;
    } };

    ghost invariant = { λ w. is_processor_count w.processors ≡ true };
}

// Written by hand, so that dropping all its fields is proved here, and not in each crate that drops
// a replay world.
impl Drop for ReplayWorld {
    fn drop(self) {
        let ReplayWorld {
            manifest,
            processors: _,
            elements,
            pending,
            clients,
        } = self;
        drop(manifest);
        drop(elements);
        drop(pending);
        drop(clients);
    }
}

impl ReplayWorld {
    /// A world with these arrays, this number of processors, and these elements, pending messages
    /// and clients. It fails only when out of memory.
    pub fn of(
        alloc: Global,
        manifest: Manifest,
        processors: u16,
        elements: BTreeMap<Elem, Element>,
        pending: Vec<Message>,
        clients: BTreeMap<u32, Client>,
    ) -> Result<Self, AllocError>
        requires processors { is_processor_count processors ≡ true }
        requires distinct { AreDistinct pending.items }
        ensures { IfOk result (λ world. world
            ≡ record {
              manifest = manifest;
              processors = processors;
              elements = elements.entries;
              pending = pending.items;
              clients = clients.entries;
            }) }
    {
        let elements = Elements::of_tree(alloc, elements)?;
        let pending = queue_of(alloc, pending)?;
        let clients = ClientRows::of_tree(alloc, clients)?;
        Ok(ReplayWorld {
            manifest,
            processors,
            elements,
            pending,
            clients,
        })
    }

    /// The kind version of each array.
    pub fn manifest(&self) -> &Manifest
        ensures { result.now ≡ self.now.manifest }
    {
        &self.manifest
    }

    /// How many processors there are, 1 to 64.
    pub fn processors(&self) -> u16
        ensures count { result ≡ self.now.processors }
        ensures few { is_processor_count result ≡ true }
    {
        self.processors
    }

    /// How many messages are pending.
    pub fn pending_count(&self) -> usize
        ensures { result ≡ length self.now.pending }
    {
        self.pending.len()
    }

    /// The pending messages, in order of arrival. It takes no memory.
    pub fn messages(&self) -> Messages<'_>
        ensures { result ≡ self.now.pending }
    {
        self.pending.iter()
    }

    /// The pending message of this id, if there is one.
    pub fn find(&self, id: MsgId) -> Option<&PendingMessage>
        ensures { option_map (λ pending_message. message_of id pending_message.now) result
            ≡ message_among id self.now.pending }
    {
        self.pending.find(id)
    }

    /// The place and counts of an element.
    pub fn element(&self, elem: Elem) -> Element
        ensures { result ≡ element_at self.now.elements elem }
    {
        self.elements.element(elem)
    }

    /// A client's rows, if it made a request.
    pub fn client(&self, client: u32) -> Option<&Client>
        ensures { option_copied result ≡ lookup (is_at (nat_cmp client)) self.now.clients }
    {
        self.clients.get(client)
    }

    /// How many clients made a request.
    pub fn client_count(&self) -> usize
        ensures { result ≡ length self.now.clients }
    {
        self.clients.len()
    }

    /// A copy of each client's row in the present world, in rising order of the clients. It fails
    /// only when out of memory.
    pub fn present_rows(&self, alloc: Global) -> Result<BTreeMap<u32, ClientRow>, AllocError>
        ensures { IfOk result (λ rows. rows.entries ≡ present_rows self.now.clients) }
    {
        self.clients.present(alloc)
    }

    /// Accepts a client's request, whose id differs from that of every pending message. When out of
    /// memory, nothing changes.
    pub fn accept(
        &mut self,
        client: u32,
        number: u64,
        to: Elem,
        entry: u16,
        words: Words,
    ) -> Result<(), AllocError>
        requires apart { message_among (record { origin = origins.Client client; number = number })
            self.old.pending ≡ None }
        ensures ok { OnOk result (self.new ≡ accepted self.old client number to entry words) }
        ensures err { OnErr result (self.new ≡ self.old) }
    {
        make_room(&mut self.pending, 1)?;
        self.clients.note_request(client, number)?;
        let origin = Origin::Client(client);
        let id = MsgId { origin, number };
        push(
            &mut self.pending,
            Message {
                id,
                to,
                entry,
                words,
            },
        );
        Ok(())
    }

    /// Delivers a pending message to its receiver, and answers it. The message is removed, its
    /// receiver advances and is destroyed or not, the receiver's sends are appended, and the client
    /// that asked has a reply without words. When out of memory, nothing changes.
    pub fn deliver(
        &mut self,
        alloc: Global,
        id: MsgId,
        to: Elem,
        sends: Sends,
        is_destroyed: bool,
    ) -> Result<Message, AllocError>
        requires pending { IsSome (message_among id self.old.pending) }
        requires to { IfSome (message_among id self.old.pending) (λ m. m.to ≡ to) }
        requires can { IfSome (message_among id self.old.pending) (CanBeDelivered self.old sends) }
        ensures message { IfOk result (λ message. message_among id self.old.pending
            ≡ Some message) }
        ensures delivered { IfOk result (λ message. self.new
            ≡ delivered_to self.old message sends is_destroyed) }
        ensures err { OnErr result (self.new ≡ self.old) }
    {
        make_room(&mut self.pending, MAX_SENDS)?;
        let slot = self.elements.slot_for(to)?;
        let Some(taken) = self.pending.take(id) else {
            unreachable!()
        };
        // A log mostly delivers the oldest message.
        self.pending.hint_head();
        let Taken { message, .. } = taken;
        let sends = sends.into_vec();
        let count = sends.len() as u64;
        let sent = advance(
            &mut self.elements,
            self.processors,
            slot,
            to,
            count,
            is_destroyed,
        );
        push_sends(&mut self.pending, to, sent, sends);
        let no_words = Words::new(Vec::new(alloc));
        self.clients.keep_reply(message.id, no_words);
        Ok(message)
    }
}
