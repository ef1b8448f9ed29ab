//! The end of an engine.

ghost use Rattle.std.specs.Prelude.{◌≡◌, [], false, IfErr, IfOk, IsOk};
ghost use Rattle.charmlet_model.specs.Shelves.{ShowsAll, records_of};
ghost use Rattle.charmlet_stock.specs.ByKind.{for_all};
ghost use Rattle.charmlet_stock.specs.Stock.{census_of, keeping_of};
ghost use Rattle.charmlet_store.specs.Dismantled.{IsCountedIn};
ghost use Rattle.charmlet_engine.specs.Engine.{core_of, world_of};

use crate::engine::Engine;
use charmlet_chare::Chare;
use charmlet_disk::Disk;
use charmlet_halves::Halves;
use charmlet_store::{Dismantled, Store};

/// The parts of a closed engine: its disk, each present element with its object and counts, in
/// rising order, and the stock.
#[derive(Drop)]
pub struct Closed<D: Disk, C: Chare> {
    pub disk: D,
    pub parts: Dismantled<C>,
}

impl<D: Disk, C: Chare> Engine<D, C> {
    /// Takes the engine apart, even a halted one: its disk, the objects of the elements with their
    /// counts, and the stock. The objects show the world after the whole history; each supplied
    /// object is among them, in the stock, or retired. It makes no call of the disk, so events that
    /// aren't durable are lost with the objects. It fails only when out of memory, and only if an
    /// element is there; then the engine comes back unchanged.
    pub fn close(self) -> Result<Closed<D, C>, Engine<D, C>>
        ensures disk { IfOk result (λ closed. closed.disk ≡ self.disk) }
        ensures shows { IfOk result (λ closed.
            ShowsAll (records_of C.state closed.parts.residents.items) (world_of self)) }
        ensures stock { IfOk result (λ closed. (census_of closed.parts.stock ≡ self.store.census)
            × (keeping_of closed.parts.stock ≡ for_all false)) }
        ensures counted { IfOk result (λ closed. IsCountedIn C.state closed.parts) }
        ensures nothing { (core_of self).places ≡ [] → IsOk result }
        ensures err { IfErr result (λ engine. engine ≡ self) }
    {
        let (store, halves) = self.into_parts();
        match store.dismantle() {
            Ok(parts) => Ok(Closed {
                disk: halves.into_disk(),
                parts,
            }),
            Err(store) => Err(Engine { store, halves }),
        }
    }

    /// The engine's disk alone. The objects are dropped, and with them the events that aren't
    /// durable. It makes no call of the disk, and takes no memory.
    pub fn into_disk(self) -> D
        ensures { result ≡ self.disk }
    {
        let (_store, halves) = self.into_parts();
        halves.into_disk()
    }
}
