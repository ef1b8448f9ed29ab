//! Requests to named handlers.

ghost use Rattle.std.specs.Prelude.{◌≡◌, ◌≤◌, ℕ, None, IfOk, OnErr, length};
ghost use Rattle.std.specs.BTreeMap.{is_at};
ghost use Rattle.std.specs.List.Sorted.{IsStrictlySortedBy};
ghost use Rattle.std.specs.Map.{keys_of, lookup};
ghost use Rattle.std.specs.Ordering.{nat_cmp};
ghost use Rattle.charmlet_model.specs.declared.names.Elem as names;
ghost use Rattle.charmlet_model.specs.Core as core;
ghost use Rattle.charmlet_model.specs.Core.{Blanks, Steps, present};
ghost use Rattle.charmlet_history.specs.Kept.{core_in, told_or_refused};
ghost use Rattle.charmlet_requests.specs.Handlers.{IsTarget, handler_of};
ghost use Rattle.charmlet_requests.specs.Pass.{IsHeard, IsUpToDate, with_accept, with_told};

use crate::asked::request;
use crate::handlers::{Handler, Handlers};
use crate::pass::ClientPass;
use charmlet_history::{History, Request};
use charmlet_model::{Elem, MAX_ARRAYS, Manifest, Refusal, Told};

/// Accepts a request of the pass's client, as [`request`] does, to a named handler: at its entry,
/// to the element of its array with this index. If no handler has the name, the answer is
/// `NoArray`, unless an earlier refusal applies; a repeat is answered as a repeat.
pub fn call(
    history: &mut History,
    pass: &mut ClientPass,
    handlers: &Handlers,
    number: u64,
    name: &str,
    index: u64,
    words: &[u64],
) -> Result<Told, Refusal>
    ensures steps { (to : names.Elem) × (entry : ℕ)
        × IsTarget (present (core_in history.old)) index (handler_of handlers.now name.now) to entry
        × ((blanks : Blanks) → Steps (core_in history.old) blanks
        (core.Request pass.old.client number to entry words.now)
        (record { answer = told_or_refused result; core = core_in history.new; blanks = blanks })) }
    ensures ok { IfOk result (λ told. pass.new
        ≡ with_accept (with_told pass.old number told) number) }
    ensures heard { IsHeard pass.old pass.new (core_in history.old) (core_in history.new)
        number result }
    ensures up_to_date { IsUpToDate pass.old (core_in history.old) →
        IsUpToDate pass.new (core_in history.new) }
    ensures same { OnErr result (core_in history.new ≡ core_in history.old) }
{
    let handler = target(history, handlers, name);
    let asked = Request {
        number,
        to: Elem {
            array: handler.array,
            index,
        },
        entry: handler.entry,
        words,
    };
    request(history, pass, &asked)
}

/// The handler of a name. If there is none, it is a handler of an array that isn't in the manifest,
/// so that a request to it is refused by `NoArray`, in that refusal's turn. It takes no memory.
pub fn target(history: &History, handlers: &Handlers, name: &str) -> Handler
    ensures { (index : ℕ) → IsTarget (present (core_in history.now)) index
        (handler_of handlers.now name.now) (record { array = result.array; index = index })
        result.entry }
{
    history.facts();
    match handlers.find(name) {
        Some(handler) => handler,
        None => Handler {
            array: array_not_in(history.manifest()),
            entry: 0,
        },
    }
}

/// The number of an array that isn't in the manifest.
fn array_not_in(manifest: &Manifest) -> u16
    requires rising { IsStrictlySortedBy nat_cmp (keys_of manifest.now) }
    requires few { length manifest.now ≤ 64 }
    ensures { lookup (is_at (nat_cmp result)) manifest.now ≡ None }
{
    for array in 0..MAX_ARRAYS as u16 + 1 {
        if manifest.kind_version_of(array).is_none() {
            return array;
        }
    }
    unreachable!()
}
