//! Lines of probes over a hub.

use crate::disk::ProbeDisk;
use crate::hub::checkpointing::checkpoint;
use crate::hub::delivering::{carry_among, commit, deliver, turn};
use crate::hub::hub_machine::HubMachine;
use crate::hub::places::{place_of_pass, place_of_seat};
use crate::objects::Object;
use crate::store::{Call, Counts, Ended, Failed, Machine, PassCounts, Running, Turn, Without};
use charmlet_hub::PassesOf;
use charmlet_leases::ClientPass;
use charmlet_model::{Answer, Elem, Kind, MsgId, Refusal, Step, Told};
use charmlet_requests::{Handlers, Request, target};
use charmlet_store::{Census, Look, Standing};
use charmlet_watch::WatchedName;
use std::alloc::AllocError;
use std::sync::Wait;

impl<B: WatchedName> HubMachine<B> {
    /// A client's pass, if it is lent.
    fn pass_in(&self, client: u32) -> Option<&ClientPass<PassesOf<B>>> {
        let place = place_of_pass(self.passes.as_slice(), client)?;
        self.passes.get(place)
    }

    /// The place of a client's pass, which is lent if it isn't yet.
    fn pass_of(&mut self, client: u32) -> Result<usize, Refusal> {
        match place_of_pass(self.passes.as_slice(), client) {
            Some(place) => Ok(place),
            None => self.add_pass(client),
        }
    }

    /// Lends a client's pass, and answers its place.
    fn add_pass(&mut self, client: u32) -> Result<usize, Refusal> {
        self.passes.reserve(1)?;
        let place = self.passes.len();
        match self.hub.lend_pass(client) {
            Ok(pass) => self.passes.push_reserved(pass),
            Err(refusal) => return Err(refusal),
        }
        Ok(place)
    }

    /// The place of a processor's seat, which is lent if it isn't yet.
    fn seat_of(&mut self, processor: u16) -> Result<usize, Refusal> {
        match place_of_seat(self.seats.as_slice(), processor) {
            Some(place) => Ok(place),
            None => self.add_seat(processor),
        }
    }

    /// Lends a processor's seat, and answers its place.
    fn add_seat(&mut self, processor: u16) -> Result<usize, Refusal> {
        self.seats.reserve(1)?;
        let place = self.seats.len();
        match self.hub.lend_seat(processor) {
            Ok(seat) => self.seats.push_reserved(seat),
            Err(refusal) => return Err(refusal),
        }
        Ok(place)
    }

    /// Makes a client's request, by its pass.
    fn request(&mut self, client: u32, request: &Request<'_>) -> Result<Told, Refusal> {
        let place = self.pass_of(client)?;
        match self.passes.get_mut(place) {
            Some(pass) => self.hub.request(&mut self.me, pass, request),
            None => Err(Refusal::PassOut),
        }
    }

    /// Tells a client what is durable of its request, by its pass.
    fn status(&mut self, client: u32, number: u64) -> Result<Told, Refusal> {
        let place = self.pass_of(client)?;
        match self.passes.get_mut(place) {
            Some(pass) => self.hub.status(&mut self.me, pass, number),
            None => Err(Refusal::PassOut),
        }
    }

    /// Delivers a message on a processor.
    fn deliver(&mut self, processor: u16, id: MsgId) -> Result<(), Refusal> {
        if self.hub.history().is_halted() {
            return Err(Refusal::Halted);
        }
        let place = self.seat_of(processor)?;
        let Some(shelf) = self.shelves.get_mut(usize::from(processor)) else {
            return Err(Refusal::BadPes);
        };
        let Some(seat) = self.seats.get_mut(place) else {
            return Err(Refusal::BadPes);
        };
        deliver(&mut self.hub, &mut self.me, shelf, seat, id)
    }

    /// Commits the performed delivery on a processor.
    fn commit(&mut self, processor: u16) -> Result<(), Failed> {
        let place = self.seat_of(processor)?;
        let Some(shelf) = self.shelves.get_mut(usize::from(processor)) else {
            return Err(Failed::Refused(Refusal::BadPes));
        };
        let Some(seat) = self.seats.get_mut(place) else {
            return Err(Failed::Refused(Refusal::BadPes));
        };
        commit(&mut self.hub, &mut self.me, shelf, seat)
    }

    /// Moves an element to a processor.
    fn relocate(&mut self, elem: Elem, processor: u16) -> Result<(), Refusal> {
        let source = match self.hub.locate_for_move(elem, processor) {
            Ok(Some(source)) => usize::from(source),
            Ok(None) => return Ok(()),
            Err(refusal) => return Err(refusal),
        };
        let shelves = self.shelves.as_mut_slice();
        carry_among(
            &mut self.hub,
            &mut self.me,
            shelves,
            source,
            usize::from(processor),
            elem,
        )
    }

    /// Makes all events durable, and tells no client.
    fn flush(&mut self) -> Result<u64, Refusal> {
        let mut none = Vec::new(self.alloc);
        self.hub.flush(&mut self.me, none.as_mut_slice())
    }

    /// The processor of an element, and its packed state.
    fn standing_on(&mut self, processor: u16, elem: Elem) -> Result<Option<Standing>, Failed> {
        let Some(shelf) = self.shelves.get_mut(usize::from(processor)) else {
            return Ok(None);
        };
        match shelf.image(elem)? {
            Some(image) => Ok(Some(Standing {
                processor,
                packed: image.packed,
            })),
            None => Ok(None),
        }
    }
}

impl<B: WatchedName> Machine for HubMachine<B> {
    fn step(&mut self, step: &Step) -> Result<Answer, Failed> {
        match step {
            Step::Request {
                client,
                number,
                to,
                entry,
                words,
            } => {
                let request = Request {
                    number: *number,
                    to: *to,
                    entry: *entry,
                    words: words.as_slice(),
                };
                Ok(Answer::Told(self.request(*client, &request)?))
            }
            Step::Status { client, number } => Ok(Answer::Told(self.status(*client, *number)?)),
            Step::Deliver { processor, id } => {
                self.deliver(*processor, *id)?;
                Ok(Answer::Delivered(*id))
            }
            Step::Move { elem, processor } => {
                self.relocate(*elem, *processor)?;
                Ok(Answer::Moved {
                    elem: *elem,
                    processor: *processor,
                })
            }
            Step::Flush => Ok(Answer::Flushed(self.flush()?)),
            Step::Checkpoint => Err(Failed::Lacks("lock")),
        }
    }

    fn checkpoint<R: Wait>(&mut self, _rt: &R) -> Result<u64, Failed> {
        checkpoint(&mut self.hub, &mut self.me, self.shelves.as_mut_slice())
    }

    fn call(&mut self, handlers: &Handlers, call: &Call<'_>) -> Result<Told, Failed> {
        if !self.lent.contains_key(&call.client) {
            return Err(Failed::Lacks("pass"));
        }
        let handler = target(self.hub.history(), handlers, call.name);
        let request = Request {
            number: call.number,
            to: Elem {
                array: handler.array,
                index: call.index,
            },
            entry: handler.entry,
            words: call.words,
        };
        Ok(self.request(call.client, &request)?)
    }

    fn supply(&mut self, blanks: Vec<Object>) -> Result<(), Failed> {
        match self.hub.supply(&mut self.me, blanks) {
            Ok(()) => Ok(()),
            Err(_) => Err(Failed::MEMORY),
        }
    }

    fn next(&self) -> Option<(u16, MsgId)> {
        self.hub.history().next()
    }

    fn pending(&self) -> Result<Vec<MsgId>, AllocError> {
        let history = self.hub.history();
        let mut ids = Vec::with_capacity(self.alloc, history.pending_count())?;
        for (id, _letter) in history.messages() {
            ids.push(id)?;
        }
        Ok(ids)
    }

    fn look(&mut self, elem: Elem) -> Result<Look, Failed> {
        self.hub.look(&mut self.me);
        let counts = self.hub.history().element(elem);
        let standing = match self.hub.history().where_is(elem) {
            Some(processor) => self.standing_on(processor, elem)?,
            None => None,
        };
        Ok(Look {
            standing,
            sent: counts.sent,
            received: counts.received,
        })
    }

    fn census(&self, kind: Kind) -> Census {
        let census = self.hub.census();
        let tally = census.get(kind);
        let elsewhere = tally.in_stock.saturating_add(tally.retired);
        Census {
            supplied: tally.supplied,
            on_shelves: tally.supplied.saturating_sub(elsewhere),
            in_stock: tally.in_stock,
            retired: tally.retired,
        }
    }

    fn counts(&self) -> Counts {
        let history = self.hub.history();
        Counts {
            generation: history.generation(),
            durable: history.durable_count(),
            events: history.event_count(),
            pending: history.pending_count() as u64,
            is_halted: history.is_halted(),
        }
    }

    fn image(&mut self) -> Result<Vec<u8>, Failed> {
        Err(Failed::Lacks("image"))
    }

    fn lend(&mut self, client: u32) -> Result<(), Failed> {
        let place = if self.lent.contains_key(&client) {
            self.add_pass(client)?
        } else {
            self.pass_of(client)?
        };
        let accepted = match self.passes.get(place) {
            Some(pass) => pass.accept_count(),
            None => 0,
        };
        self.lent.insert(client, accepted)?;
        Ok(())
    }

    fn give(&mut self, _client: u32) -> Result<(), Failed> {
        Err(Failed::Lacks("giving back"))
    }

    fn pass(&self, client: u32) -> Result<PassCounts, Failed> {
        let Some(before) = self.lent.get(&client) else {
            return Err(Failed::Lacks("pass"));
        };
        match self.pass_in(client) {
            Some(pass) => Ok(PassCounts {
                last: pass.last(),
                accepted: pass.accept_count().saturating_sub(*before),
            }),
            None => Err(Failed::Lacks("pass")),
        }
    }

    fn known(&self, client: u32, number: u64) -> Result<Told, Failed> {
        if !self.lent.contains_key(&client) {
            return Err(Failed::Lacks("pass"));
        }
        match self.pass_in(client) {
            Some(pass) => Ok(pass.known(number)?),
            None => Err(Failed::Lacks("pass")),
        }
    }

    fn close(self, without: Without) -> Result<Ended, (Refusal, Self)> {
        self.come_apart(without)
    }

    fn into_disk(self) -> Option<ProbeDisk> {
        match self.come_apart(Without::Nothing) {
            Ok(Ended { disk, parts: _ }) => Some(disk),
            Err((_, machine)) => match machine.come_apart(Without::Nothing) {
                Ok(Ended { disk, parts: _ }) => Some(disk),
                Err(_) => None,
            },
        }
    }

    fn assign(&mut self, processor: u16, id: MsgId) -> Result<(), Failed> {
        match self.shelves.get_mut(usize::from(processor)) {
            Some(shelf) => Ok(self.hub.assign(&mut self.me, shelf, id)?),
            None => Err(Failed::Refused(Refusal::BadPes)),
        }
    }

    fn turn(&mut self, of: Turn, processor: u16) -> Result<(), Failed> {
        if let Turn::Commit = of {
            return self.commit(processor);
        }
        match self.shelves.get_mut(usize::from(processor)) {
            Some(shelf) => turn(&mut self.hub, &mut self.me, shelf, of),
            None => Err(Failed::Refused(Refusal::BadPes)),
        }
    }

    fn lend_seat(&mut self, processor: u16) -> Result<(), Failed> {
        self.add_seat(processor)?;
        Ok(())
    }

    fn held(&self, processor: u16) -> Result<&[MsgId], Failed> {
        for seat in &self.seats {
            if seat.processor() == processor {
                return Ok(seat.ids());
            }
        }
        Err(Failed::Lacks("seat"))
    }

    fn tell(&mut self) -> Result<u64, Failed> {
        let passes = self.passes.as_mut_slice();
        Ok(self.hub.flush(&mut self.me, passes)?)
    }

    fn running(&mut self, call: Running) -> Result<Option<u64>, Failed> {
        self.call_running(call)
    }
}
