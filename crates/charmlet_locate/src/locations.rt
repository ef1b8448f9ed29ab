//! Where elements stand after a restart.

use charmlet_model::Elem;
use std::alloc::{AllocError, Global};
use std::collections::BTreeMap;
use std::marker::Model;

/// The processor of each present element, as after a restart. It doesn't change. A contract sees
/// the entries, in rising order.
#[derive(Drop)]
pub struct Locations {
    places: BTreeMap<Elem, u16>,
}

impl Model for Locations {
    ghost use Rattle.std.specs.Prelude.{ℕ, List};
    ghost use Rattle.charmlet_model.specs.declared.names.Elem.{Elem};

    ghost Value = { List (Elem × ℕ) };

    ghost view = { λ locations. locations.places.entries };
}

impl Locations {
    ghost use Rattle.std.specs.Prelude.{◌≡◌, [], OnOk, OnErr};
    ghost use Rattle.std.specs.BTreeMap.{insert_entry, is_at};
    ghost use Rattle.std.specs.Map.{lookup};
    ghost use Rattle.charmlet_model.specs.Names.{elem_cmp};

    /// No elements. It takes no memory.
    pub(crate) fn new(alloc: Global) -> Self
        ensures { result ≡ [] }
    {
        Locations {
            places: BTreeMap::new(alloc),
        }
    }

    /// The processor of an element, if it is there. It takes no memory.
    pub fn where_is(&self, elem: Elem) -> Option<u16>
        ensures { result ≡ lookup (is_at (elem_cmp elem)) self.now }
    {
        self.places.get(&elem).copied()
    }

    /// Places an element on a processor, wherever it stood before. Any 16-bit number is allowed
    /// here. It fails only when out of memory, and then nothing has changed.
    pub(crate) fn place(&mut self, elem: Elem, processor: u16) -> Result<(), AllocError>
        ensures ok { OnOk result (self.new ≡ insert_entry elem_cmp self.old elem processor) }
        ensures err { OnErr result (self.new ≡ self.old) }
    {
        self.places.insert(elem, processor)?;
        Ok(())
    }
}
