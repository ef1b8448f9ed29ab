//! Names of handlers.

use charmlet_model::Refusal;
use std::alloc::Global;
use std::collections::BTreeMap;

/// The meaning of a handler's name: an array, and an entry of its elements.
#[derive(Clone, Copy, Debug, PartialEq, Eq)]
pub struct Handler {
    pub array: u16,
    pub entry: u16,
}

/// The registered handlers, by their names. They aren't stored, and have to be registered again
/// after a restart.
#[derive(Drop)]
pub struct Handlers {
    alloc: Global,
    by_name: BTreeMap<String, Handler>,
}

impl Handlers {
    ghost use Rattle.std.specs.Prelude.{◌≡◌, ℕ, List, None, Some, Err, IfErr, OnErr, OnOk, if◌then◌else◌};
    ghost use Rattle.std.specs.Str.{bytes_eq};
    ghost use Rattle.charmlet_requests.specs.Handlers.{handler_of};
    ghost use Rattle.charmlet_model.specs.declared.refusal.Refusal.TheVariants as refusals;

    /// A table with no handlers. It takes no memory.
    pub fn new(alloc: Global) -> Self
        ensures { (name : List ℕ) → handler_of result name ≡ None }
    {
        Handlers {
            alloc,
            by_name: BTreeMap::new(alloc),
        }
    }

    /// Registers a handler under a name, replacing one that has the name already. It fails only
    /// with `Memory`, and then nothing changes.
    pub fn register(&mut self, name: &str, handler: Handler) -> Result<(), Refusal>
        ensures ok { OnOk result ((other : List ℕ) → handler_of self.new other
            ≡ (if bytes_eq name.now other then Some handler else handler_of self.old other)) }
        ensures err { IfErr result (λ refusal. refusal ≡ refusals.Memory) }
        ensures same { OnErr result ((other : List ℕ) → handler_of self.new other
            ≡ handler_of self.old other) }
    {
        let key = String::from_str(self.alloc, name)?;
        self.by_name.insert(key, handler)?;
        Ok(())
    }

    /// The handler of a name, if one is registered. It takes no memory.
    pub fn find(&self, name: &str) -> Option<Handler>
        ensures { result ≡ handler_of self.now name.now }
    {
        self.by_name.get(name).copied()
    }
}
