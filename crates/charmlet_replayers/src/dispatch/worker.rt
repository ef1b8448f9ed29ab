//! The replayer of an element.

ghost use Rattle.std.specs.Prelude.{◌≡◌, ◌<◌, true};
ghost use Rattle.charmlet_locate.specs.Locations.{is_processor_count};
ghost use Rattle.charmlet_replayers.specs.Dispatch.Sharing.{worker_of};

use charmlet_locate::home;
use charmlet_model::Elem;

/// The replayer of an element, of `workers` replayers on this many processors. Each replayer has
/// the shelves of some processors, and an element belongs to the replayer of its home.
pub fn worker_of(elem: Elem, processors: u16, workers: usize) -> usize
    requires processors { is_processor_count processors ≡ true }
    requires some { 0 < workers }
    ensures worker { result ≡ worker_of processors workers elem }
    ensures within { result < workers }
{
    let Ok(home) = home(elem, processors) else {
        unreachable!()
    };
    usize::from(home) % workers
}
