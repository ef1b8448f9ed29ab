//! The messages that are assigned to processors.

ghost use Rattle.std.specs.Prelude.{◌≡◌, ◌≤◌, ◌^◌, [], false, is_some, length};
ghost use Rattle.std.specs.Prelude.{IsOk, OnErr, OnOk};
ghost use Rattle.std.specs.Ordering.{nat_cmp};
ghost use Rattle.std.specs.BTreeMap.{insert_entry, is_at};
ghost use Rattle.std.specs.Map.{lookup, remove_entry};

use charmlet_model::MsgId;
use std::alloc::{AllocError, Global};
use std::collections::BTreeMap;
use std::marker::Model;

/// The message that each processor is to deliver. Usually there is at most one, which stands in a
/// field of its own; others are in a tree.
#[derive(Drop)]
pub(crate) struct Assigned {
    /// One message outside the tree, with its processor. It may be `None` even if there are others.
    first: Option<(u16, MsgId)>,
    others: BTreeMap<u16, MsgId>,
}

impl Model for Assigned {
    ghost use Rattle.charmlet_history.specs.Assigned.{AreApart, Assignments, all_entries};

    ghost Value = { Assignments };

    ghost view = { λ a. record { entries = all_entries a.first a.others.entries } };

    ghost invariant = { λ a. AreApart a.first a.others.entries };
}

impl Assigned {
    /// No messages. It takes no memory.
    pub(crate) fn new(alloc: Global) -> Self
        ensures { result.entries ≡ [] }
    {
        Assigned {
            first: None,
            others: BTreeMap::new(alloc),
        }
    }

    /// The processor's message, if it has one.
    #[inline(always)]
    pub(crate) fn get(&self, processor: u16) -> Option<MsgId>
        ensures { result ≡ lookup (is_at (nat_cmp processor)) self.now.entries }
    {
        match self.first {
            Some((own, id)) if own == processor => Some(id),
            _ => self.others.get(&processor).copied(),
        }
    }

    /// Whether the processor has a message.
    pub(crate) fn contains(&self, processor: u16) -> bool
        ensures { result ≡ is_some (lookup (is_at (nat_cmp processor)) self.now.entries) }
    {
        self.get(processor).is_some()
    }

    /// How many processors have a message.
    pub(crate) fn len(&self) -> usize
        ensures len { result ≡ length self.now.entries }
        ensures small { result ≤ 2 ^ 63 }
    {
        if self.first.is_some() {
            self.others.len() + 1
        } else {
            self.others.len()
        }
    }

    /// Gives a message to the processor, which has to have none. If no processor has one, it takes
    /// no memory. When out of memory, nothing changes.
    pub(crate) fn insert(&mut self, processor: u16, id: MsgId) -> Result<(), AllocError>
        requires { is_some (lookup (is_at (nat_cmp processor)) self.old.entries) ≡ false }
        ensures entries { OnOk result
            (self.new.entries ≡ insert_entry nat_cmp self.old.entries processor id) }
        ensures err { OnErr result (self.new.entries ≡ self.old.entries) }
        ensures memory { self.old.entries ≡ [] → IsOk result }
    {
        if self.first.is_none() {
            self.first = Some((processor, id));
            return Ok(());
        }
        self.others.insert(processor, id)?;
        Ok(())
    }

    /// Removes the processor's message, and returns whether it had one.
    pub(crate) fn remove(&mut self, processor: u16) -> bool
        ensures value { result ≡ is_some (lookup (is_at (nat_cmp processor)) self.old.entries) }
        ensures entries { self.new.entries ≡
            remove_entry (is_at (nat_cmp processor)) self.old.entries }
    {
        match self.first {
            Some((own, _)) if own == processor => {
                self.first = None;
                true
            }
            _ => self.others.remove(&processor).is_some(),
        }
    }
}
