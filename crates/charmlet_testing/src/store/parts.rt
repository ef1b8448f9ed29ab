//! The parts of a closed store.

use crate::objects::Object;
use crate::store::blanks::count_in;
use charmlet_model::{Elem, Kind, Resident};
use charmlet_store::Dismantled;

/// The objects of a closed store.
pub struct Parts {
    parts: Dismantled<Object>,
}

// Written by hand, so that dropping all objects of a store is proved here, and not in each crate
// that drops parts.
impl Drop for Parts {
    fn drop(self) {
        let Parts { parts } = self;
        drop(parts);
    }
}

impl Parts {
    /// The parts of a store.
    pub fn new(parts: Dismantled<Object>) -> Parts {
        Parts { parts }
    }

    /// Each element with its object and its counts, in order.
    pub fn residents(&self) -> &[(Elem, Resident<Object>)] {
        &self.parts.residents
    }

    /// How many blanks of a kind are left.
    pub fn left(&self, kind: Kind) -> u64 {
        count_in(&self.parts.stock, kind)
    }
}
