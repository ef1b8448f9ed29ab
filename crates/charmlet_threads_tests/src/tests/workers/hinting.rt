//! A worker's commit leaves a ticket for each message that its receiver sent, in the queue of the
//! processor that is to deliver it.

ghost use Rattle.std.specs.Prelude.{◌≡◌};
ghost use Rattle.charmlet_locks.specs.GhostAuth.Naming.{table_of};
ghost use Rattle.charmlet_model.specs.KindVersion.{AreNewest};
ghost use Rattle.charmlet_sequencer.specs.Sequencer.{IsOf};
ghost use Rattle.charmlet_engine.specs.Engine.{core_of};

use charmlet_history::Request;
use charmlet_hub::{PassesOf, SeatsOf};
use charmlet_leases::{ClientPass, Seat};
use charmlet_model::{CONSTRUCT, Elem, Kind, Manifest, MsgId, Origin, Told};
use charmlet_runtime::RuntimeBuilder;
use charmlet_sequencer::RuntimeName;
use charmlet_testing::{Object, ProbeDisk, Tally, blanks};
use charmlet_workers::{OpenGate, Runtime, RuntimeRoom, UnnamedAuthorities};
use std::alloc::AllocGlobal;
use std::marker::Brand;
use std::process::Abort;
use std::sync::{Arc, Wait};

const CLIENT: u32 = 7;

// The element of the array that is made on the processor of this number.
fn element(index: u64) -> Elem {
    Elem { array: 0, index }
}

// An array of elements of this kind.
fn array_of(rt: &(impl AllocGlobal + Abort), kind: Kind) -> Manifest
    ensures { AreNewest result }
{
    let arrays = [(0, kind.number())];
    Manifest::of(rt.alloc(), &arrays)
        .expect(rt, "memory")
        .expect(rt, "one array")
}

// A new runtime on two processors, with an array of elements of this kind.
fn create(rt: &(impl AllocGlobal + Abort), kind: Kind) -> RuntimeBuilder<ProbeDisk, Object>
    ensures { (core_of result).processors ≡ 2 }
{
    let disk = ProbeDisk::new(rt.alloc()).expect(rt, "memory");
    match RuntimeBuilder::create(rt.alloc(), disk, array_of(rt, kind), 2) {
        Ok(begun) => begun,
        Err(_) => panic!(rt; "no store is there"),
    }
}

// The client makes a request to an element, whose worker delivers it.
fn ask<B: RuntimeName, R: Wait + Abort>(
    rt: &R,
    runtime: &Runtime<ProbeDisk, Object, B>,
    pass: &mut ClientPass<PassesOf<B>>,
    seat: &mut Seat<SeatsOf<B>>,
    entry: u16,
    word: u64,
) {
    let request = Request {
        number: pass.last().saturating_add(1),
        to: element(u64::from(seat.processor())),
        entry,
        words: &[word],
    };
    assert!(rt; matches!(runtime.request(rt, pass, &request), Ok(Told::Unknown)));
    assert_eq!(rt; runtime.work(rt, seat, &OpenGate, 1).count, 1);
}

// The tickets of a seat are taken.
fn clear<B: RuntimeName>(rt: &impl Abort, seat: &mut Seat<SeatsOf<B>>) {
    for _ in 0..9 {
        let _ticket = seat.next_ticket();
    }
    assert!(rt; seat.next_ticket().is_none());
}

// There is one ticket at this seat: for element 0's message of this number.
fn has_ticket<B: RuntimeName>(rt: &impl Abort, seat: &mut Seat<SeatsOf<B>>, number: u64) {
    let id = MsgId {
        origin: Origin::Element(element(0)),
        number,
    };
    let ticket = seat.next_ticket().expect(rt, "a ticket is there");
    assert_eq!(rt; ticket.processor, seat.processor());
    assert_eq!(rt; ticket.id, id);
    assert!(rt; seat.next_ticket().is_none());
}

// Two elements are made, each on its processor, and a token goes from the first one to the second.
fn pass_on<B: RuntimeName, R: Wait + AllocGlobal + Abort>(
    rt: &R,
    runtime: Runtime<ProbeDisk, Object, B>,
    tally: &Arc<Tally>,
) {
    let objects = blanks(rt.alloc(), tally, &[(Kind::Ring, 2)]).expect(rt, "memory");
    assert!(rt; runtime.supply(rt, objects).is_ok());
    let mut pass = runtime.client(rt, CLIENT).expect(rt, "it isn't out");
    let mut first = runtime.seat(rt, 0).expect(rt, "it isn't out");
    let mut second = runtime.seat(rt, 1).expect(rt, "it isn't out");
    ask(rt, &runtime, &mut pass, &mut first, CONSTRUCT, 1);
    ask(rt, &runtime, &mut pass, &mut second, CONSTRUCT, 0);
    clear(rt, &mut second);
    ask(rt, &runtime, &mut pass, &mut first, 0, 1);
    has_ticket(rt, &mut second, 1);
    assert_eq!(rt; runtime.work(rt, &mut second, &OpenGate, 1).count, 1);
}

// A tree of depth 1 is made on processor 0, and sends for its two children, one for each processor.
// That was the only turn, so the message of the second child isn't assigned, and has no blank yet.
fn grow<B: RuntimeName, R: Wait + AllocGlobal + Abort>(
    rt: &R,
    runtime: Runtime<ProbeDisk, Object, B>,
    tally: &Arc<Tally>,
) {
    let objects = blanks(rt.alloc(), tally, &[(Kind::Tree, 3)]).expect(rt, "memory");
    assert!(rt; runtime.supply(rt, objects).is_ok());
    let mut pass = runtime.client(rt, CLIENT).expect(rt, "it isn't out");
    let mut first = runtime.seat(rt, 0).expect(rt, "it isn't out");
    let mut second = runtime.seat(rt, 1).expect(rt, "it isn't out");
    ask(rt, &runtime, &mut pass, &mut first, CONSTRUCT, 1);
    let trees = runtime.census(rt).trees;
    assert_eq!(rt; [trees.supplied, trees.in_stock], [3, 2]);
    let asked = first.next_ticket().expect(rt, "the request left a ticket");
    assert_eq!(rt; asked.id.origin, Origin::Client(CLIENT));
    has_ticket(rt, &mut first, 2);
    has_ticket(rt, &mut second, 1);
}

// Runs one of the two under the name `B`: a tree is made, or a token goes on.
fn run_named<B: RuntimeName, R: Wait + AllocGlobal + Abort>(
    rt: &R,
    begun: RuntimeBuilder<ProbeDisk, Object>,
    authorities: UnnamedAuthorities,
    kind: Kind,
    tally: &Arc<Tally>,
)
    requires named { IsOf B.opening B.before B.processors (core_of begun) }
    requires generation { B.generation ≡ (core_of begun).generation }
    requires two { B.processors ≡ 2 }
    requires parts { table_of authorities.parts ≡ B.table }
    requires seats { table_of authorities.seats ≡ B.seats }
    requires passes { table_of authorities.passes ≡ B.passes }
    requires checkpoints { table_of authorities.checkpoints ≡ B.checkpoints }
    requires honest { B.honest → ⊥ }
{
    let room = RuntimeRoom::new(rt.alloc(), 2).expect(rt, "memory");
    let runtime = begun.open_in::<B>(authorities, room);
    match kind {
        Kind::Tree => grow(rt, runtime, tally),
        _ => pass_on(rt, runtime, tally),
    }
}

// Runs elements of this kind, under a name of its own.
fn run_once<R: Wait + AllocGlobal + Abort>(rt: &R, kind: Kind) {
    let tally = Arc::new(rt.alloc(), Tally::new()).expect(rt, "memory");
    let authorities = UnnamedAuthorities::new(rt.alloc()).expect(rt, "memory");
    run_named::<Brand, R>(rt, create(rt, kind), authorities, kind, &tally)
}

#[test]
fn a_commit_leaves_tickets_for_what_was_sent(rt: HostRuntime) {
    run_once(&rt, Kind::Ring);
}

#[test]
fn a_commit_leaves_a_ticket_for_each_of_several_sends(rt: HostRuntime) {
    run_once(&rt, Kind::Tree);
}
