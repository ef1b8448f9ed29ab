//! Upgrades of states and of elements' records to the newest versions of their kinds.

ghost use Rattle.std.specs.Prelude.{◌≡◌, true, option_map};
ghost use Rattle.charmlet_model.specs.Upgrade.{up, up_record, up_records};

use charmlet_model::{Elem, Record, State};
use std::collections::BTreeMap;

/// Brings each element's record forward to the newest version of its kind. It takes no memory.
pub(crate) fn upgrade_records(records: &mut BTreeMap<Elem, Record>)
    ensures { records.new.entries ≡ up_records records.old.entries }
{
    records.retain(
        |_elem: &Elem, entry: &mut Record| -> bool
            ensures { (result ≡ true) × (entry.new ≡ up_record entry.old) }
        {
            upgrade_record(entry);
            true
        },
    );
}

/// Brings an element's record forward to the newest version: its state, if it is there.
fn upgrade_record(entry: &mut Record)
    ensures { entry.new ≡ up_record entry.old }
{
    entry.state = newest_of(entry.state.take());
}

/// The state in the newest version of its kind, if there is one.
fn newest_of(state: Option<State>) -> Option<State>
    ensures { result ≡ option_map up state }
{
    match state {
        Some(state) => Some(newest(state)),
        None => None,
    }
}

/// The state in the newest version of its kind. A version 1 counter gets its count as its peak; any
/// other state is unchanged.
fn newest(state: State) -> State
    ensures { result ≡ up state }
{
    match state {
        State::FirstCounter { count } => State::Counter { count, peak: count },
        State::Counter { count, peak } => State::Counter { count, peak },
        State::Ring { next, seen } => State::Ring { next, seen },
        State::Account { balance } => State::Account { balance },
        State::Sum {
            want,
            got,
            total,
            up,
        } => State::Sum {
            want,
            got,
            total,
            up,
        },
        State::Tree { depth } => State::Tree { depth },
        State::Tape { items } => State::Tape { items },
    }
}
