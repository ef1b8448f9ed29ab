//! Blanks that pending messages want.

ghost use Rattle.std.specs.Prelude.{◌≡◌};
ghost use Rattle.charmlet_model.specs.declared.message.Message.{Message};
ghost use Rattle.charmlet_model.specs.Core.{blank_for};
ghost use Rattle.charmlet_history.specs.Kept.{core_in};
ghost use Rattle.charmlet_history.specs.Wanting.{is_of_kind, wanted_in};

use crate::history::History;
use charmlet_model::{CONSTRUCT, Elem, Kind};

impl History {
    /// How many pending messages want a blank of this kind: those that construct an element that
    /// isn't there. Each takes a blank from the stock when it is delivered. It takes no memory.
    pub fn wanted_blanks(&self, kind: Kind) -> usize
        ensures { result ≡ wanted_in (core_in self.now) kind }
    {
        // A count of some messages fits, since the count of all fits.
        let _all = self.pending_count();
        let mut wanted = 0;
        for (_id, pending_message) in self.messages() {
            if self.takes_blank(pending_message.to, pending_message.entry, kind) {
                wanted += 1;
            }
        }
        wanted
    }

    /// Whether a message to this element and entry takes a blank of the kind when it is delivered.
    fn takes_blank(&self, to: Elem, entry: u16, kind: Kind) -> bool
        ensures { (m : Message) → m.to ≡ to → m.entry ≡ entry →
            result ≡ is_of_kind (blank_for (core_in self.now) m) kind }
    {
        self.facts();
        if entry != CONSTRUCT || self.where_is(to).is_some() {
            return false;
        }
        match self.manifest().kind_version_of(to.array) {
            Some(kind_version) => kind_version.kind().number() == kind.number(),
            None => false,
        }
    }
}
