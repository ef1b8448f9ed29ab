//! Several deliveries in a row.

ghost use Rattle.std.specs.Prelude.{◌≡◌};
ghost use Rattle.charmlet_engine.specs.Advances.{Advances};
ghost use Rattle.charmlet_engine.specs.Delivering.{DeliversNext, DrainsUpTo};
ghost use Rattle.charmlet_engine.specs.Engine.{supplied_of, view_of};

use crate::engine::Engine;
use charmlet_chare::Chare;
use charmlet_disk::Disk;
use charmlet_model::{Answer, Refusal, Step};

/// The result of several deliveries in a row.
#[derive(Clone, Copy, Debug, PartialEq, Eq)]
pub struct Deliveries {
    /// How many deliveries were made.
    pub count: u32,
    /// The refusal of the next one, if that ended them.
    pub refusal: Option<Refusal>,
}

impl<D: Disk, C: Chare> Engine<D, C> {
    /// Delivers the oldest message that can be delivered, on the processor of its receiver, up to
    /// `most` times. It ends sooner if no message can be delivered any more, or if a delivery is
    /// refused, which changes nothing: `Halted`; `HistoryFull`; `NoBlank` if the message constructs
    /// an element, and the stock has no blank of its kind; `Memory`. That message stays the next
    /// one, so supply a blank, or give memory, before another call. It makes no call of the disk.
    pub fn deliver_up_to(&mut self, most: u32) -> Deliveries
        ensures drains { DrainsUpTo (view_of self.old) most result.count result.refusal
            (view_of self.new) }
        ensures supplied { supplied_of self.new ≡ supplied_of self.old }
        ensures disk { self.new.disk ≡ self.old.disk }
        ensures advances { Advances D.Disk self.old self.new }
    {
        self.facts();
        for count in 0..most {
            match self.deliver_next() {
                Ok(true) => {}
                Ok(false) => {
                    return Deliveries {
                        count,
                        refusal: None,
                    };
                }
                Err(refusal) => {
                    return Deliveries {
                        count,
                        refusal: Some(refusal),
                    };
                }
            }
        }
        Deliveries {
            count: most,
            refusal: None,
        }
    }

    /// Delivers the oldest message that can be delivered, if there is one, on the processor of its
    /// receiver.
    fn deliver_next(&mut self) -> Result<bool, Refusal>
        ensures delivers { DeliversNext (view_of self.old) result (view_of self.new) }
        ensures supplied { supplied_of self.new ≡ supplied_of self.old }
        ensures disk { self.new.disk ≡ self.old.disk }
        ensures advances { Advances D.Disk self.old self.new }
    {
        self.facts();
        let Some((processor, id)) = self.next() else {
            return Ok(false);
        };
        match self.step(&Step::Deliver { processor, id }) {
            Answer::Refused(refusal) => Err(refusal),
            _ => Ok(true),
        }
    }
}
