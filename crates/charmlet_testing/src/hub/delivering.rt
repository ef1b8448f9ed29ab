//! A worker's calls of a hub and of the shelves under the locks of processors.

use crate::disk::ProbeDisk;
use crate::objects::Object;
use crate::store::{Failed, Turn};
use charmlet_hub::SeatsOf;
use charmlet_leases::Seat;
use charmlet_model::{Elem, MsgId, Refusal};
use charmlet_sequencer::ProcessorState;
use charmlet_watch::{Watched, WatchedName, Watcher};

/// What is lacking if no delivery is under way, or if it isn't as far as it has to be.
const DELIVERY: Failed = Failed::Lacks("delivery");

/// Delivers a message as a worker does, with the seat of the shelf's processor.
pub(crate) fn deliver<B: WatchedName>(
    hub: &mut Watched<ProbeDisk, Object, B>,
    me: &mut Watcher<B>,
    shelf: &mut ProcessorState<Object, B>,
    seat: &mut Seat<SeatsOf<B>>,
    id: MsgId,
) -> Result<(), Refusal> {
    seat.reserve(1)?;
    hub.assign(me, shelf, id)?;
    if shelf.enter().is_err() {
        hub.release(me, shelf);
        return Err(Refusal::Memory);
    }
    hub.commit(me, shelf, seat)?;
    Ok(())
}

/// Commits the performed delivery on a shelf, with the seat of its processor.
pub(crate) fn commit<B: WatchedName>(
    hub: &mut Watched<ProbeDisk, Object, B>,
    me: &mut Watcher<B>,
    shelf: &mut ProcessorState<Object, B>,
    seat: &mut Seat<SeatsOf<B>>,
) -> Result<(), Failed> {
    seat.reserve(1)?;
    if !shelf.is_done() {
        return Err(DELIVERY);
    }
    hub.commit(me, shelf, seat)?;
    Ok(())
}

/// Runs the reaction of the receiver on a shelf.
pub(crate) fn enter<B: WatchedName>(shelf: &mut ProcessorState<Object, B>) -> Result<(), Failed> {
    if !shelf.is_assigned() {
        return Err(DELIVERY);
    }
    Ok(shelf.enter()?)
}

/// Makes this call on a shelf, for which no seat is needed.
pub(crate) fn turn<B: WatchedName>(
    hub: &mut Watched<ProbeDisk, Object, B>,
    me: &mut Watcher<B>,
    shelf: &mut ProcessorState<Object, B>,
    turn: Turn,
) -> Result<(), Failed> {
    match turn {
        Turn::Enter => enter(shelf),
        Turn::CommitOwn if shelf.is_done() => {
            hub.commit_without_seat(me, shelf)?;
            Ok(())
        }
        Turn::Finish if shelf.is_done() => {
            hub.finish(me, shelf);
            Ok(())
        }
        Turn::Release if shelf.is_assigned() => {
            hub.release(me, shelf);
            Ok(())
        }
        Turn::Settle => {
            if shelf.is_done() {
                hub.finish(me, shelf);
            } else if shelf.is_assigned() {
                hub.release(me, shelf);
            }
            Ok(())
        }
        _ => Err(DELIVERY),
    }
}

/// Moves an element from one shelf to another, if it stands on the first one.
pub(crate) fn carry<B: WatchedName>(
    hub: &mut Watched<ProbeDisk, Object, B>,
    me: &mut Watcher<B>,
    from: &mut ProcessorState<Object, B>,
    to: &mut ProcessorState<Object, B>,
    elem: Elem,
) -> Result<(), Refusal> {
    let Some(place) = hub.history().where_is(elem) else {
        return Err(Refusal::Absent);
    };
    if place != from.number() || from.number() == to.number() {
        return Err(Refusal::Absent);
    }
    hub.relocate(me, from, to, elem)
}

/// Moves an element from the shelf at one place to that at another.
pub(crate) fn carry_among<B: WatchedName>(
    hub: &mut Watched<ProbeDisk, Object, B>,
    me: &mut Watcher<B>,
    shelves: &mut [ProcessorState<Object, B>],
    source: usize,
    destination: usize,
    elem: Elem,
) -> Result<(), Refusal> {
    let greater = source.max(destination);
    if source == destination || greater >= shelves.len() {
        return Err(Refusal::BadPes);
    }
    let (front, back) = shelves.split_at_mut(greater);
    if source < destination {
        carry(hub, me, &mut front[source], &mut back[0], elem)
    } else {
        carry(hub, me, &mut back[0], &mut front[destination], elem)
    }
}
