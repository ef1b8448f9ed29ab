//! Lines of probes over a hub.

ghost use Rattle.std.specs.Prelude.{◌≡◌};
ghost use Rattle.charmlet_locks.specs.GhostAuth.Naming.{table_of};
ghost use Rattle.charmlet_sequencer.specs.Sequencer.{IsOf};

use crate::Probe;
use charmlet_testing::{Authorities, ExitReason, HubMachine, ProbeStore};
use charmlet_watch::WatchedName;
use std::io::Write;
use std::marker::Brand;
use std::sync::Wait;
use std::thread::Threads;

/// Runs the lines of a probe until its store ends, over a hub.
pub(crate) fn live_on_hub<W: Write, R: Threads + Wait + Sync>(
    rt: &R,
    probe: &mut Probe<'_, W>,
    store: ProbeStore,
) -> Result<(), ExitReason> {
    let Ok(authorities) = Authorities::new(probe.alloc) else {
        return Err(ExitReason::CannotGoOn);
    };
    live_as::<Brand, W, R>(rt, probe, store, authorities)
}

/// Runs the lines of a probe over a hub under this name.
fn live_as<B: WatchedName, W: Write, R: Threads + Wait + Sync>(
    rt: &R,
    probe: &mut Probe<'_, W>,
    store: ProbeStore,
    authorities: Authorities,
) -> Result<(), ExitReason>
    requires named { IsOf B.opening B.before B.processors store }
    requires generation { B.generation ≡ store.generation }
    requires parts { table_of authorities.parts ≡ B.table }
    requires seats { table_of authorities.seats ≡ B.seats }
    requires passes { table_of authorities.passes ≡ B.passes }
    requires checkpoints { table_of authorities.checkpoints ≡ B.checkpoints }
    requires sightings { table_of authorities.sightings ≡ B.sightings }
    requires honest { B.honest → ⊥ }
{
    match HubMachine::<B>::open(probe.alloc, store, authorities) {
        Ok(machine) => {
            let mut store = Some(machine);
            probe.live(rt, &mut store)
        }
        Err(_) => Err(ExitReason::CannotGoOn),
    }
}
