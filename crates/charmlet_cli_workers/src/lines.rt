//! The running of lines.

ghost use Rattle.std.specs.Prelude.{◌≡◌, ℕ, ◌+◌, ◌≤◌, List, false, OnErr, OnOk, map};
ghost use Rattle.charmlet_model.specs.declared.kind.Kind as kinds;
ghost use Rattle.charmlet_model.specs.declared.names.MsgId as names;
ghost use Rattle.charmlet_stock.specs.Stock.{blanks_in};
ghost use Rattle.charmlet_script.specs.Script.{blanks_of};
ghost use Rattle.charmlet_script.specs.Script.{blanks_in as supplied_by};
ghost use Rattle.charmlet_script.specs.declared.script.Line.TheVariants as lines;
ghost use Rattle.charmlet_model.specs.declared.step.Step.TheVariants as steps;
ghost use Rattle.charmlet_runtime.specs.Engine.{client_answer};
ghost use Rattle.charmlet_requests.specs.Handlers.{IsTarget};
ghost use Rattle.charmlet_script_output.specs.Named.{Names};
ghost use Rattle.charmlet_cli_workers.specs.Heard.{AreLater, AreTidy, IsDoneBy, known_by, names_in};
ghost use Rattle.charmlet_cli_workers.specs.Lines.{has_delivery, is_delivery};
ghost use Rattle.charmlet_cli_workers.specs.Said.{Answers, AreCutOff, AreSaid, Deeds, IsWritten, Says};

use crate::clients::Clients;
use crate::drain::drain_line;
use crate::inquiries::{census_line, pending_line, state_line};
use crate::seats::Floor;
use crate::supply::supply_line;
use charmlet_chare::Chare;
use charmlet_disk::Disk;
use charmlet_history::Request;
use charmlet_model::{Answer, Elem, Refusal, Step, Told};
use charmlet_requests::Handlers;
use charmlet_script::Line;
use charmlet_script_output::{Call, told_answer, write_answer, write_step_answer};
use charmlet_sequencer::RuntimeName;
use charmlet_workers::Runtime;
use std::alloc::Global;
use std::io;
use std::io::Write;
use std::sync::Wait;
use std::thread::Threads;

/// Whether one of the lines is `deliver`.
pub(crate) fn has_delivery(lines: &[Line]) -> bool
    ensures { result ≡ has_delivery lines.now }
{
    lines.iter().any(|line| is_delivery(line))
}

/// Whether the line is `deliver`.
fn is_delivery(line: &Line) -> bool
    ensures { result ≡ is_delivery line.now }
{
    matches!(line, Line::Step(Step::Deliver { .. }))
}

/// Runs lines one after another.
pub(crate) fn run_lines<
    D: Disk,
    C: Chare,
    B: RuntimeName + Send + Sync,
    W: Write,
    R: Threads + Wait + Sync,
>(
    rt: &R,
    alloc: Global,
    runtime: &Runtime<D, C, B>,
    floor: &mut Floor<C, B>,
    lines: &[Line],
    writer: &mut W,
) -> io::Result<()>
    requires no_delivery { has_delivery lines.now ≡ false }
    requires enough { (kind : kinds.Kind) → blanks_of kind lines.now
        ≤ blanks_in floor.old.source kind }
    requires tidy { AreTidy floor.old.clients.passes.items floor.old.clients.places.entries }
    ensures seats { floor.new.seats ≡ floor.old.seats }
    ensures said { OnOk result ((first : Deeds) → IsDoneBy floor.old.clients.passes.items
        (map (λ slot. slot.seat.ids) floor.old.slots.items) first →
        (last : Deeds) × IsDoneBy floor.new.clients.passes.items
        (map (λ slot. slot.seat.ids) floor.new.slots.items) last
        × AreSaid (known_by runtime.now (names_in floor.old.handlers)
        floor.new.clients.passes.items) first lines.now last
        (W.contents writer.old) (W.contents writer.new)) }
    ensures cut_off { OnErr result ((first : Deeds) → IsDoneBy floor.old.clients.passes.items
        (map (λ slot. slot.seat.ids) floor.old.slots.items) first →
        (last : Deeds) × IsDoneBy floor.new.clients.passes.items
        (map (λ slot. slot.seat.ids) floor.new.slots.items) last
        × AreCutOff (known_by runtime.now (names_in floor.old.handlers)
        floor.new.clients.passes.items) first lines.now last
        (W.contents writer.old) (W.contents writer.new)) }
{
    for line in lines {
        run_line(rt, alloc, runtime, floor, line, writer)?;
    }
    Ok(())
}

/// Runs one line, and writes its answers.
fn run_line<D: Disk, C: Chare, B: RuntimeName + Send + Sync, W: Write, R: Threads + Wait + Sync>(
    rt: &R,
    alloc: Global,
    runtime: &Runtime<D, C, B>,
    floor: &mut Floor<C, B>,
    line: &Line,
    writer: &mut W,
) -> io::Result<()>
    requires no_delivery { is_delivery line.now ≡ false }
    requires enough { (kind : kinds.Kind) → supplied_by kind line.now
        ≤ blanks_in floor.old.source kind }
    requires tidy { AreTidy floor.old.clients.passes.items floor.old.clients.places.entries }
    ensures left { (kind : kinds.Kind) → blanks_in floor.old.source kind
        ≤ blanks_in floor.new.source kind + supplied_by kind line.now }
    ensures tidy { AreTidy floor.new.clients.passes.items floor.new.clients.places.entries }
    ensures seats { floor.new.seats ≡ floor.old.seats }
    ensures handlers { floor.new.handlers ≡ floor.old.handlers }
    ensures said { (before : Deeds) → IsDoneBy floor.old.clients.passes.items
        (map (λ slot. slot.seat.ids) floor.old.slots.items) before →
        (after : Deeds) × IsDoneBy floor.new.clients.passes.items
        (map (λ slot. slot.seat.ids) floor.new.slots.items) after
        × IsWritten result (λ texts. Says (known_by runtime.now (names_in floor.old.handlers)
        floor.new.clients.passes.items) before line.now texts after) (W.contents writer.old)
        (W.contents writer.new) }
    ensures later { AreLater floor.old.clients.passes.items floor.new.clients.passes.items }
{
    match line {
        Line::Supply { kind, count } => {
            let source = &mut floor.source;
            supply_line(rt, alloc, runtime, source, *kind, *count, writer)
        }
        Line::Drain { count } => {
            let slots = floor.slots.as_mut_slice();
            drain_line(rt, alloc, runtime, slots, *count, writer)
        }
        Line::State(elem) => state_line(rt, alloc, runtime, *elem, writer),
        Line::Pending => pending_line(rt, alloc, runtime, writer),
        Line::Census => census_line(rt, alloc, runtime, writer),
        Line::Call {
            client,
            number,
            name,
            index,
            words,
        } => {
            let call = Call {
                client: *client,
                number: *number,
                name: name.as_str(),
                index: *index,
                words: words.as_slice(),
            };
            let handlers = &floor.handlers;
            let told = call_handler(rt, runtime, handlers, &mut floor.clients, &call);
            write_answer(alloc, writer, &told_answer(told))
        }
        Line::Step(step) => {
            let answer = answer_to(rt, alloc, runtime, &mut floor.clients, step);
            write_step_answer(alloc, writer, step, &answer)
        }
    }
}

/// Makes a client's request to a named handler, by its pass. A repeat is answered before the name
/// is looked up.
fn call_handler<D: Disk, C: Chare, B: RuntimeName, R: Wait>(
    rt: &R,
    runtime: &Runtime<D, C, B>,
    handlers: &Handlers,
    clients: &mut Clients<B>,
    call: &Call<'_>,
) -> Result<Told, Refusal>
    requires tidy { AreTidy clients.old.passes.items clients.old.places.entries }
    ensures tidy { AreTidy clients.new.passes.items clients.new.places.entries }
    ensures did { (lists : List (List names.MsgId)) (before : Deeds) →
        IsDoneBy clients.old.passes.items lists before →
        (after : Deeds) × (array : ℕ) × (entry : ℕ)
        × IsDoneBy clients.new.passes.items lists after
        × IsTarget runtime.now.opening call.now.index (names_in handlers.now call.now.name.now)
        (record { array = array; index = call.now.index }) entry
        × Answers (known_by runtime.now (names_in handlers.now) clients.new.passes.items) before
        (client_answer result)
        (steps.Request call.now.client call.now.number
        (record { array = array; index = call.now.index }) entry call.now.words.now) after }
    ensures later { AreLater clients.old.passes.items clients.new.passes.items }
{
    let handler = runtime.target(rt, handlers, call.name);
    let request = Request {
        number: call.number,
        to: Elem {
            array: handler.array,
            index: call.index,
        },
        entry: handler.entry,
        words: call.words,
    };
    clients.request(rt, runtime, call.client, &request)
}

/// Runs one step, which isn't a delivery. Clients' requests and questions go by their passes.
fn answer_to<D: Disk, C: Chare, B: RuntimeName, R: Wait>(
    rt: &R,
    alloc: Global,
    runtime: &Runtime<D, C, B>,
    clients: &mut Clients<B>,
    step: &Step,
) -> Answer
    requires no_delivery { is_delivery (lines.Step step.now) ≡ false }
    requires tidy { AreTidy clients.old.passes.items clients.old.places.entries }
    ensures tidy { AreTidy clients.new.passes.items clients.new.places.entries }
    ensures answers { (named : Names) (lists : List (List names.MsgId)) (before : Deeds) →
        IsDoneBy clients.old.passes.items lists before →
        (after : Deeds) × IsDoneBy clients.new.passes.items lists after
        × Answers (known_by runtime.now named clients.new.passes.items) before result step.now
        after }
    ensures later { AreLater clients.old.passes.items clients.new.passes.items }
{
    match step {
        Step::Request {
            client,
            number,
            to,
            entry,
            words,
        } => {
            let request = Request {
                number: *number,
                to: *to,
                entry: *entry,
                words: words.as_slice(),
            };
            told_answer(clients.request(rt, runtime, *client, &request))
        }
        Step::Status { client, number } => {
            told_answer(clients.status(rt, runtime, *client, *number))
        }
        Step::Deliver { .. } => unreachable!(),
        Step::Move { elem, processor } => match runtime.move_to(rt, *elem, *processor) {
            Ok(()) => Answer::Moved {
                elem: *elem,
                processor: *processor,
            },
            Err(refusal) => Answer::Refused(refusal),
        },
        Step::Flush => match clients.flush(rt, runtime) {
            Ok(durable) => Answer::Flushed(durable),
            Err(refusal) => Answer::Refused(refusal),
        },
        Step::Checkpoint => match runtime.checkpoint(rt) {
            Ok(generation) => Answer::Checkpointed(generation),
            Err(refusal) => Answer::Refused(refusal),
        },
    }
}
