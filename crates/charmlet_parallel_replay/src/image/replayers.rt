//! Replayers that have nothing yet.

ghost use Rattle.std.specs.Prelude.{◌≡◌, IfOk, length, true};
ghost use Rattle.std.specs.List.{All};
ghost use Rattle.charmlet_locate.specs.Locations.{is_processor_count};
ghost use Rattle.charmlet_parallel_replay.specs.Image.Filled.{IsEmptyReplayer};

use charmlet_chare::Chare;
use charmlet_replay::begin;
use charmlet_replayers::Replayer;
use charmlet_stock::Stock;
use std::alloc::{AllocError, Global};

/// A replayer on this many processors that has no element and no object yet, and nothing to do. It
/// fails only when out of memory.
fn empty_replayer<C: Chare>(alloc: Global, processors: u16) -> Result<Replayer<C>, AllocError>
    requires { is_processor_count processors ≡ true }
    ensures { IfOk result (IsEmptyReplayer processors) }
{
    match begin(alloc, Stock::new(alloc), processors) {
        Ok(restored) => Ok(Replayer {
            alloc,
            restored,
            deliveries: Vec::new(alloc),
            tasks: Vec::new(alloc),
            replies: Vec::new(alloc),
            stopped: None,
        }),
        Err(_) => Err(AllocError),
    }
}

/// Makes `workers` replayers, which have nothing yet. It fails only when out of memory.
pub fn empty_replayers<C: Chare>(
    alloc: Global,
    processors: u16,
    workers: u16,
) -> Result<Vec<Replayer<C>>, AllocError>
    requires { is_processor_count processors ≡ true }
    ensures count { IfOk result (λ replayers. length replayers.items ≡ workers) }
    ensures empty { IfOk result (λ replayers. All (IsEmptyReplayer processors) replayers.items) }
{
    let mut replayers = Vec::with_capacity(alloc, usize::from(workers))?;
    for _ in 0..workers {
        replayers.push(empty_replayer(alloc, processors)?)?;
    }
    Ok(replayers)
}
