//! Runtimes over restored stores.

ghost use Rattle.std.specs.Prelude.{◌≡◌, ◌≢◌, ℕ, true, IfErr, IfOk};
ghost use Rattle.charmlet_model.specs.declared.refusal.Refusal.TheVariants as refusals;
ghost use Rattle.charmlet_locks.specs.GhostAuth.Naming.{table_of};
ghost use Rattle.charmlet_sequencer.specs.Sequencer.{IsOf};
ghost use Rattle.charmlet_stock.specs.declared.stock.Stock as stocks;
ghost use Rattle.charmlet_workers.specs.Runtime.{shown_of};
ghost use Rattle.charmlet_engine.specs.Reopened.{IsReopened, core_to_be, is_going_refusal};
ghost use Rattle.charmlet_runtime.specs.Reopening.{IsRuntimeRestart};

use crate::builder::RuntimeBuilder;
use charmlet_chare::Chare;
use charmlet_disk::Disk;
use charmlet_engine::{NotRestarted, Reopened};
use charmlet_sequencer::RuntimeName;
use charmlet_workers::{Runtime, RuntimeRoom, UnnamedAuthorities};
use std::alloc::Global;

/// Opens a runtime with threads over a restored store ([`Reopened::from_disk`]), under the name
/// `B`, which its caller has picked for the store once it goes on, and for these authorities. All
/// memory that the runtime needs to open is asked for first. Then the store goes on in its files
/// ([`Reopened::resume`]), by an image of itself if one is wanted, and the runtime opens over it
/// without memory. An engine's promises about a restart hold here word for word; so it doesn't
/// matter whether the store was an engine's or a runtime's before.
///
/// `Memory`; `ImageFull` if the image's generation would be past 2^40 or its file past 2^31 bytes;
/// and `Device`. Each hands the disk and all blanks back, these in whatever state, so that the
/// caller may try again; except for `Device` nothing is written.
///
/// As with [`Runtime::open_in`], nothing that bears the name can leave the function that is generic
/// in it.
pub fn open_reopened<D: Disk, C: Chare, B: RuntimeName>(
    alloc: Global,
    reopened: Reopened<D, C>,
    authorities: UnnamedAuthorities,
) -> Result<Runtime<D, C, B>, NotRestarted<D, C>>
    requires named { IsOf B.opening B.before B.processors (core_to_be reopened) }
    requires generation { B.generation ≡ (core_to_be reopened).generation }
    requires parts { table_of authorities.parts ≡ B.table }
    requires seats { table_of authorities.seats ≡ B.seats }
    requires passes { table_of authorities.passes ≡ B.passes }
    requires checkpoints { table_of authorities.checkpoints ≡ B.checkpoints }
    requires honest { B.honest → D.honest reopened.disk }
    ensures shown { IfOk result (λ runtime. runtime ≡ shown_of (core_to_be reopened)) }
    ensures err { IfErr result (λ refused. is_going_refusal refused.refusal ≡ true) }
    ensures same { IfErr result (λ refused. refused.refusal ≢ refusals.Device →
        refused.disk ≡ reopened.disk) }
    ensures restarts { (processors : ℕ) (blanks : stocks.Stock C C.Chare) (first : D) →
        IsReopened D.Disk processors blanks first reopened →
        IsRuntimeRestart D.Disk processors blanks first (core_to_be reopened) result }
{
    let Ok(room) = RuntimeRoom::new(alloc, reopened.processors()) else {
        return Err(reopened.into_refused());
    };
    match reopened.resume() {
        Ok(engine) => {
            let begun = RuntimeBuilder { engine };
            Ok(begun.open_in(authorities, room))
        }
        Err(refused) => Err(refused),
    }
}
