//! A history that opens with a small world in which much has happened already.

ghost use Rattle.std.specs.Prelude.{◌≡◌, ◌≤◌, ◌<◌, ◌^◌, [], ◌∷◌, Some, None, IfOk};
ghost use Rattle.charmlet_history.specs.Parts.{world_of};
ghost use Rattle.charmlet_state_tests.specs.Opening.{array_versions, clients, counter_at, message, opening_world, pending, records};

use charmlet_history::{History, Opening, WorldParts};
use charmlet_model::{
    ClientRow, Elem, Manifest, Message, MsgId, Origin, Record, Refusal, State, Window, Words,
};
use std::alloc::{AllocError, Global};

// An element of the counters.
pub fn counter_at(index: u64) -> Elem
    ensures { result ≡ counter_at index }
{
    Elem { array: 0, index }
}

// The history that opens with the small world.
pub fn opened(
    alloc: Global,
    before: u64,
    generation: u64,
    log_end: u64,
    processors: u16,
) -> Result<History, Refusal>
    requires before { before ≤ 2 ^ 40 }
    requires some_generation { 1 ≤ generation }
    requires few_generations { generation ≤ 2 ^ 40 }
{
    let parts = opening_parts(alloc)?;
    let opening = Opening::of(alloc, parts, processors)?;
    Ok(History::open(alloc, opening, before, generation, log_end))
}

fn opening_parts(alloc: Global) -> Result<WorldParts, AllocError>
    ensures { IfOk result (λ parts. world_of parts ≡ opening_world) }
{
    let manifest = manifest(alloc)?;
    let records = records(alloc)?;
    let pending = pending(alloc)?;
    let clients = clients(alloc)?;
    Ok(WorldParts {
        manifest,
        records,
        pending,
        clients,
    })
}

// An array of counters, and one of trees that has no elements.
fn manifest(alloc: Global) -> Result<Manifest, AllocError>
    ensures { IfOk result (λ manifest. manifest ≡ array_versions) }
{
    let manifest = Manifest::of(alloc, &[(0, 1), (1, 5)])?;
    let Some(manifest) = manifest else {
        unreachable!()
    };
    Ok(manifest)
}

fn record(state: Option<State>, sent: u64, received: u64) -> Record
    ensures { result ≡ record { state = state; sent = sent; received = received } }
{
    Record {
        state,
        sent,
        received,
    }
}

fn records(alloc: Global) -> Result<Vec<(Elem, Record)>, AllocError>
    ensures { IfOk result (λ entries. entries.items ≡ records) }
{
    let first = record(Some(State::Counter { count: 5, peak: 5 }), 0, 2);
    let absent = record(None, 1, 3);
    let last = record(Some(State::Counter { count: 7, peak: 9 }), 2, 1);
    let records = vec![in alloc;
        (counter_at(0), first),
        (counter_at(1), absent),
        (counter_at(5), last),
    ]?;
    Ok(records)
}

fn message(
    alloc: Global,
    origin: Origin,
    number: u64,
    index: u64,
    entry: u16,
    words: &[u64],
) -> Result<Message, AllocError>
    ensures { IfOk result (λ m. m ≡ message origin number index entry words.now) }
{
    let words = Words::from_slice(alloc, words)?;
    Ok(Message {
        id: MsgId { origin, number },
        to: counter_at(index),
        entry,
        words,
    })
}

fn pending(alloc: Global) -> Result<Vec<Message>, AllocError>
    ensures { IfOk result (λ messages. messages.items ≡ pending) }
{
    let first = message(alloc, Origin::Client(7), 2, 0, 4, &[3])?;
    let waiting = message(alloc, Origin::Element(counter_at(5)), 2, 1, 0, &[])?;
    let last = message(alloc, Origin::Client(8), 2, 5, 4, &[])?;
    let pending = vec![in alloc; first, waiting, last]?;
    Ok(pending)
}

// Two items, the first with a reply.
fn short_window(alloc: Global) -> Result<Window, AllocError>
    ensures { IfOk result (λ window. window ≡ Some (5 ∷ []) ∷ None ∷ []) }
{
    let reply = Words::from_slice(alloc, &[5])?;
    let mut window = Window::new();
    window.push(Some(reply));
    window.push(None);
    Ok(window)
}

// Eight items, the first without a reply.
fn full_window(alloc: Global) -> Result<Window, AllocError>
    ensures { IfOk result (λ window. window
        ≡ None ∷ Some (3 ∷ []) ∷ Some [] ∷ Some [] ∷ Some [] ∷ Some [] ∷ Some [] ∷ Some (9 ∷ [])
        ∷ []) }
{
    let early = Words::from_slice(alloc, &[3])?;
    let late = Words::from_slice(alloc, &[9])?;
    let mut window = Window::new();
    window.push(None);
    window.push(Some(early));
    for _ in 0..5usize {
        window.push(Some(Words::new(Vec::new(alloc))));
    }
    window.push(Some(late));
    Ok(window)
}

fn clients(alloc: Global) -> Result<Vec<(u32, ClientRow)>, AllocError>
    ensures { IfOk result (λ rows. rows.items ≡ clients) }
{
    let short = ClientRow {
        last: 2,
        window: short_window(alloc)?,
    };
    let full = ClientRow {
        last: 9,
        window: full_window(alloc)?,
    };
    let clients = vec![in alloc; (7, short), (8, full)]?;
    Ok(clients)
}
