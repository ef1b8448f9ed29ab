//! Steps of a history, and the text of what each answers.

ghost use Rattle.std.specs.Prelude.{◌≡◌, IsNone};
ghost use Rattle.charmlet_chare.specs.Output.{empty_output};
ghost use Rattle.charmlet_history.specs.Kept.{IsAssignedOutput, core_in};

use super::opening::counter_at;
use charmlet_chare::Output;
use charmlet_history::{History, RefusedCommit, Request};
use charmlet_model::{Elem, KindVersion, MsgId, Origin, Refusal, Sends, Told, Words};
use charmlet_world::Element;
use std::alloc::{AllocError, Global};
use std::process::Abort;

// A step of a history.
#[derive(Clone, Copy)]
pub enum Step {
    // This client's request with this number, to counter 0 at an entry that it doesn't have.
    Ask(u32, u64),
    Status(u32, u64),
    // Whether this client's request with this number can be assigned to the processor.
    Test(u16, u32, u64),
    // The client's request, which is to a counter at an entry that it doesn't have, is assigned to
    // the processor and committed.
    Deliver(u16, u32, u64),
    // Like `Deliver`, but the message isn't committed.
    Assign(u16, u32, u64),
    Release(u16),
    // The message that is assigned to the processor.
    Assigned(u16),
    // Whether the element can move to the processor.
    Move(Elem, u16),
    // The element moves to the processor, if it can.
    Relocate(Elem, u16),
    Flush,
    Halt,
    IsHalted,
    WhereIs(Elem),
    Counts(Elem),
    Next,
    Pending,
    // Like `Assign`; then the store is halted and the message committed. Only a refusal may come
    // back.
    HaltAssigned(u16, u32, u64),
}

// The answer to a step.
#[derive(Drop)]
pub enum Answer {
    Done,
    Refused(Refusal),
    Told(Told),
    Blank(Option<KindVersion>),
    Durable(u64),
    Halted(bool),
    QueuePlace(Option<u16>),
    Counted(Element),
    Assigned(Option<MsgId>),
    Next(Option<(u16, MsgId)>),
    Pending(usize),
    // Something came back with a refusal.
    CameBack,
}

fn of_client(client: u32, number: u64) -> MsgId {
    MsgId {
        origin: Origin::Client(client),
        number,
    }
}

// Asks for an entry that counters don't have.
fn ask(history: &mut History, client: u32, number: u64) -> Result<Told, Refusal> {
    let request = Request {
        number,
        to: counter_at(0),
        entry: 4,
        words: &[4],
    };
    history.request(client, &request)
}

fn told(answered: Result<Told, Refusal>) -> Answer {
    match answered {
        Ok(told) => Answer::Told(told),
        Err(refusal) => Answer::Refused(refusal),
    }
}

fn blank(answered: Result<Option<KindVersion>, Refusal>) -> Answer {
    match answered {
        Ok(kind_version) => Answer::Blank(kind_version),
        Err(refusal) => Answer::Refused(refusal),
    }
}

fn done(refusal: Option<Refusal>) -> Answer {
    match refusal {
        None => Answer::Done,
        Some(refusal) => Answer::Refused(refusal),
    }
}

fn durable(answered: Result<u64, Refusal>) -> Answer {
    match answered {
        Ok(count) => Answer::Durable(count),
        Err(refusal) => Answer::Refused(refusal),
    }
}

// The answer to a step that changes nothing, if it is one.
fn looked_up(history: &History, step: Step) -> Option<Answer> {
    let found = match step {
        Step::Status(client, number) => told(history.status(client, number)),
        Step::Test(processor, client, number) => {
            blank(history.test_delivery(processor, of_client(client, number)))
        }
        Step::Move(elem, processor) => blank(history.test_move(elem, processor)),
        Step::Assigned(processor) => Answer::Assigned(assigned(history, processor)),
        Step::IsHalted => Answer::Halted(history.is_halted()),
        Step::WhereIs(elem) => Answer::QueuePlace(history.where_is(elem)),
        Step::Counts(elem) => Answer::Counted(history.element(elem)),
        Step::Next => Answer::Next(history.next()),
        Step::Pending => Answer::Pending(history.pending_count()),
        _ => return None,
    };
    Some(found)
}

fn assigned(history: &History, processor: u16) -> Option<MsgId> {
    let (id, _pending_message) = history.assigned(processor)?;
    Some(id)
}

// The element moves to the processor, if it can.
fn relocate(history: &mut History, elem: Elem, processor: u16) -> Option<Refusal> {
    match history.test_move(elem, processor) {
        Ok(_) => match history.relocate(elem, processor) {
            Ok(()) => None,
            Err(_) => Some(Refusal::Memory),
        },
        Err(refusal) => Some(refusal),
    }
}

// Takes a step, and returns its answer.
fn answer_to(history: &mut History, alloc: Global, step: Step) -> Answer {
    match step {
        Step::Ask(client, number) => told(ask(history, client, number)),
        Step::Flush => durable(history.flush()),
        Step::Deliver(processor, client, number) => {
            done(deliver(history, alloc, processor, of_client(client, number)))
        }
        Step::Assign(processor, client, number) => {
            done(assign(history, processor, of_client(client, number)))
        }
        Step::Relocate(elem, processor) => done(relocate(history, elem, processor)),
        Step::Release(processor) => {
            history.release(processor);
            Answer::Done
        }
        Step::Halt => {
            history.halt();
            Answer::Done
        }
        Step::HaltAssigned(processor, client, number) => {
            halt_assigned(history, alloc, processor, of_client(client, number))
        }
        _ => looked_up(history, step).unwrap_or(Answer::Done),
    }
}

// Assigns a message to a counter at an entry that it doesn't have, so that the delivery does
// nothing. Counter 0 is there, and processor 3 is idle.
fn assign(history: &mut History, processor: u16, id: MsgId) -> Option<Refusal>
    ensures outcome { IsNone result →
        IsAssignedOutput (core_in history.new) processor empty_output }
{
    if let Err(refusal) = history.test_delivery(processor, id) {
        return Some(refusal);
    }
    let kind_version = match history.test_move(counter_at(0), 3) {
        Ok(kind_version) => kind_version,
        Err(refusal) => return Some(refusal),
    };
    let Some(KindVersion::Counter) = kind_version else {
        return Some(Refusal::Strayed);
    };
    if history.assign(processor, id).is_err() {
        return Some(Refusal::Memory);
    }
    history.facts();
    let Some((_id, pending_message)) = history.assigned(processor) else {
        return Some(Refusal::Strayed);
    };
    if pending_message.entry != 4 || pending_message.to.array != 0 {
        return Some(Refusal::Strayed);
    }
    None
}

// The output of such a message. It takes no memory.
fn nothing(alloc: Global) -> Output
    ensures { result ≡ empty_output }
{
    Output {
        sends: Sends::new(Vec::new(alloc)),
        reply: Words::new(Vec::new(alloc)),
        is_destroyed: false,
    }
}

fn deliver(history: &mut History, alloc: Global, processor: u16, id: MsgId) -> Option<Refusal> {
    let refused = assign(history, processor, id);
    if refused.is_some() {
        return refused;
    }
    match history.commit(processor, nothing(alloc)) {
        Ok(()) => None,
        Err(refused) => Some(refused.refusal),
    }
}

// Halts the store after such a message was assigned. The commit is refused, and the output that was
// passed in comes back.
fn halt_assigned(history: &mut History, alloc: Global, processor: u16, id: MsgId) -> Answer {
    let refused = assign(history, processor, id);
    if refused.is_some() {
        return done(refused);
    }
    history.halt();
    match history.commit(processor, nothing(alloc)) {
        Ok(()) => Answer::Done,
        Err(refused) => came_back(refused),
    }
}

// The refusal, if no send and no reply came back with it.
fn came_back(refused: RefusedCommit) -> Answer {
    let RefusedCommit { refusal, output } = refused;
    if output.sends.as_slice().is_empty() && output.reply.is_empty() && !output.is_destroyed {
        Answer::Refused(refusal)
    } else {
        Answer::CameBack
    }
}

fn write_next(text: &mut String, next: Option<(u16, MsgId)>) -> Result<(), AllocError> {
    match next {
        Some((processor, id)) => writeln!(text, "next {processor} {id}"),
        None => writeln!(text, "next none"),
    }
}

fn write_assigned(text: &mut String, assigned: Option<MsgId>) -> Result<(), AllocError> {
    match assigned {
        Some(id) => writeln!(text, "assigned {id}"),
        None => writeln!(text, "assigned none"),
    }
}

fn write_element(text: &mut String, element: Element) -> Result<(), AllocError> {
    let Element {
        place,
        sent,
        received,
    } = element;
    writeln!(text, "{place:?} sent {sent} received {received}")
}

fn write_blank(text: &mut String, kind_version: Option<KindVersion>) -> Result<(), AllocError> {
    match kind_version {
        Some(kind_version) => {
            let kind = kind_version.kind();
            writeln!(text, "can with a blank of kind {kind}")
        }
        None => writeln!(text, "can"),
    }
}

fn write_answer(text: &mut String, answer: &Answer) -> Result<(), AllocError> {
    match answer {
        Answer::Done => writeln!(text, "done"),
        Answer::Refused(refusal) => writeln!(text, "{refusal}"),
        Answer::Told(told) => writeln!(text, "{told}"),
        Answer::Blank(kind_version) => write_blank(text, *kind_version),
        Answer::Durable(count) => writeln!(text, "durable {count}"),
        Answer::Halted(is_halted) => writeln!(text, "halted {is_halted}"),
        Answer::QueuePlace(place) => writeln!(text, "{place:?}"),
        Answer::Counted(element) => write_element(text, *element),
        Answer::Assigned(id) => write_assigned(text, *id),
        Answer::Next(next) => write_next(text, *next),
        Answer::Pending(count) => writeln!(text, "pending {count}"),
        Answer::CameBack => writeln!(text, "came back"),
    }
}

// Takes the steps in order. Their answers are this text, a line each.
pub fn run(rt: &(impl AllocGlobal + Abort), history: &mut History, steps: &[Step], wanted: &str) {
    let mut text = String::new(rt.alloc());
    for step in steps {
        let answer = answer_to(history, rt.alloc(), *step);
        write_answer(&mut text, &answer).expect(rt, "memory");
    }
    assert_eq!(rt; text.as_str(), wanted);
}
