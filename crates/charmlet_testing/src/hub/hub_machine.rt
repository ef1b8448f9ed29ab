//! A hub with its shelves, and the seats and passes that it has lent.

ghost use Rattle.std.specs.Prelude.{◌≡◌, ◌≤◌, vec_len};
ghost use Rattle.std.specs.Vec.{vec_capacity};
ghost use Rattle.charmlet_locks.specs.GhostAuth.Naming.{table_of};
ghost use Rattle.charmlet_sequencer.specs.Sequencer.{IsOf};

use crate::disk::ProbeDisk;
use crate::hub::checkpointing::end as end_running;
use crate::hub::closing::{end, put_back, take_pass, take_seat};
use crate::objects::Object;
use crate::store::{Ended, ProbeStore, Without};
use charmlet_hub::{
    Checkpoint, CheckpointsOf, Closed, GhostToken, Hub, NotClosed, PassesOf, SeatsOf,
};
use charmlet_leases::{ClientPass, GhostIds, GhostPass, Seat};
use charmlet_locks::UnnamedAuthority;
use charmlet_model::Refusal;
use charmlet_sequencer::{GhostPart, Opened, ProcessorState, open_store};
use charmlet_store::empty_shelves;
use charmlet_watch::{GhostLog, SightingsOf, Watched, WatchedName, Watcher};
use std::alloc::{AllocError, Global};
use std::collections::BTreeMap;

/// The authorities of a hub, before they have their names.
#[derive(Drop)]
pub struct Authorities {
    pub parts: UnnamedAuthority<GhostPart>,
    pub seats: UnnamedAuthority<GhostIds>,
    pub passes: UnnamedAuthority<GhostPass>,
    pub checkpoints: UnnamedAuthority<GhostToken>,
    pub sightings: UnnamedAuthority<GhostLog>,
}

impl Authorities {
    /// New authorities of a hub. It fails only when out of memory.
    pub fn new(alloc: Global) -> Result<Authorities, AllocError> {
        let parts = UnnamedAuthority::new(alloc)?;
        let seats = UnnamedAuthority::new(alloc)?;
        let passes = UnnamedAuthority::new(alloc)?;
        let checkpoints = UnnamedAuthority::new(alloc)?;
        let sightings = UnnamedAuthority::new(alloc)?;
        Ok(Authorities {
            parts,
            seats,
            passes,
            checkpoints,
            sightings,
        })
    }
}

/// A hub with the log of its calls, the shelves under their locks, and the seats and passes that it
/// has lent. One thread works for all processors, as one caller.
pub struct HubMachine<B: WatchedName> {
    pub(crate) alloc: Global,
    pub(crate) hub: Watched<ProbeDisk, Object, B>,
    /// The one caller.
    pub(crate) me: Watcher<B>,
    pub(crate) shelves: Vec<ProcessorState<Object, B>>,
    /// The seats that are lent: those that were asked for, and those of processors that delivered.
    pub(crate) seats: Vec<Seat<SeatsOf<B>>>,
    /// The passes that are lent: those that were asked for, and those of clients that asked for
    /// something, since a hub knows none without one.
    pub(crate) passes: Vec<ClientPass<PassesOf<B>>>,
    /// The clients whose passes were asked for, and how many accepts each pass had by then.
    pub(crate) lent: BTreeMap<u32, u64>,
    /// The running checkpoint.
    pub(crate) checkpoint: Option<Checkpoint<B>>,
}

// Written by hand, so that dropping a hub is proved here, and not in each crate that drops such a
// machine.
impl<B: WatchedName> Drop for HubMachine<B> {
    fn drop(self) {
        let HubMachine {
            alloc: _,
            mut hub,
            mut me,
            shelves,
            seats,
            passes,
            lent,
            checkpoint,
        } = self;
        end_running(&mut hub, &mut me, checkpoint);
        drop(hub);
        drop(me);
        drop(shelves);
        drop(seats);
        drop(passes);
        drop(lent);
    }
}

impl<B: WatchedName> HubMachine<B> {
    /// A hub over a store, under its name. Nothing is lent. It fails only when out of memory.
    pub fn open(
        alloc: Global,
        store: ProbeStore,
        authorities: Authorities,
    ) -> Result<Self, AllocError>
        requires named { IsOf B.opening B.before B.processors store }
        requires generation { B.generation ≡ store.generation }
        requires parts { table_of authorities.parts ≡ B.table }
        requires seats { table_of authorities.seats ≡ B.seats }
        requires passes { table_of authorities.passes ≡ B.passes }
        requires checkpoints { table_of authorities.checkpoints ≡ B.checkpoints }
        requires sightings { table_of authorities.sightings ≡ B.sightings }
        requires honest { B.honest → ⊥ }
    {
        let processors = store.processors();
        match Vec::with_capacity(alloc, usize::from(processors)) {
            Ok(shelves) => Ok(Self::open_with(alloc, store, processors, authorities, shelves)),
            Err(_) => Err(AllocError),
        }
    }

    /// Opens a hub over a store, with a list that has room for its shelves.
    fn open_with(
        alloc: Global,
        store: ProbeStore,
        processors: u16,
        authorities: Authorities,
        shelves: Vec<ProcessorState<Object, B>>,
    ) -> Self
        requires named { IsOf B.opening B.before B.processors store }
        requires generation { B.generation ≡ store.generation }
        requires processors { processors ≡ B.processors }
        requires parts { table_of authorities.parts ≡ B.table }
        requires seats { table_of authorities.seats ≡ B.seats }
        requires passes { table_of authorities.passes ≡ B.passes }
        requires checkpoints { table_of authorities.checkpoints ≡ B.checkpoints }
        requires sightings { table_of authorities.sightings ≡ B.sightings }
        requires honest { B.honest → ⊥ }
        requires none { vec_len shelves ≡ 0 }
        requires room { B.processors ≤ vec_capacity shelves }
    {
        let (store, halves) = store.into_parts();
        let Authorities {
            parts,
            seats,
            passes,
            checkpoints,
            sightings,
        } = authorities;
        let Opened { sequencer, shelves } = open_store(store, halves, parts.named::<B>(), shelves);
        let seat_table = seats.named::<SeatsOf<B>>();
        let pass_table = passes.named::<PassesOf<B>>();
        let tokens = checkpoints.named::<CheckpointsOf<B>>();
        let hub = Hub::new(alloc, sequencer, processors, seat_table, pass_table, tokens);
        let (hub, me) = Watched::new(hub, sightings.named::<SightingsOf<B>>());
        HubMachine {
            alloc,
            hub,
            me,
            shelves,
            seats: Vec::new(alloc),
            passes: Vec::new(alloc),
            lent: BTreeMap::new(alloc),
            checkpoint: None,
        }
    }

    /// Takes the machine apart, handing in everything except `without`, or returns it with the
    /// refusal. A running checkpoint is given up.
    pub(crate) fn come_apart(self, without: Without) -> Result<Ended, (Refusal, Self)> {
        if self.shelves.len() != usize::from(self.hub.processors()) {
            return Err((Refusal::Strayed, self));
        }
        let Ok(empty) = empty_shelves(self.alloc, self.hub.processors()) else {
            return Err((Refusal::Memory, self));
        };
        let HubMachine {
            alloc,
            mut hub,
            mut me,
            shelves,
            mut seats,
            mut passes,
            lent,
            checkpoint,
        } = self;
        end_running(&mut hub, &mut me, checkpoint);
        let (hub, log) = hub.into_parts();
        let seat = take_seat(&mut seats, without);
        let pass = take_pass(&mut passes, without);
        match hub.close(shelves, empty, seats, passes) {
            Ok(
                Closed {
                    store,
                    halves,
                    own: _,
                },
            ) => Ok(end(store, halves)),
            Err(back) => {
                let NotClosed {
                    refusal,
                    hub,
                    shelves,
                    empty: _,
                    mut seats,
                    mut passes,
                } = back;
                put_back(&mut seats, seat);
                put_back(&mut passes, pass);
                Err((
                    refusal,
                    HubMachine {
                        alloc,
                        hub: Watched::from_parts(hub, log),
                        me,
                        shelves,
                        seats,
                        passes,
                        lent,
                        checkpoint: None,
                    },
                ))
            }
        }
    }
}
