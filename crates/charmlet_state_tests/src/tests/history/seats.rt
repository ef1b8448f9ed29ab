//! Each call of seats and their table.

ghost use Rattle.std.specs.Prelude.{◌≡◌, ◌<◌};
ghost use Rattle.charmlet_locks.specs.GhostAuth.Naming.{table_of};

use charmlet_leases::{DeliveryIds, GhostIds, Seat, SeatTable, SeatTableName, SeatsOut};
use charmlet_locks::UnnamedAuthority;
use charmlet_model::{MsgId, Origin, Refusal};
use std::marker::Brand;
use std::process::Abort;

// The id of a client's request with this number.
pub fn id(number: u64) -> MsgId {
    MsgId {
        origin: Origin::Client(7),
        number,
    }
}

// Commits a request with a seat.
fn commit<B: SeatTableName>(
    rt: &impl Abort,
    table: &mut SeatTable<B>,
    seat: &mut Seat<B>,
    number: u64,
) {
    seat.reserve(1).expect(rt, "memory");
    table.commit(seat, id(number));
}

// Commits a request without a seat.
fn commit_without_seat<B: SeatTableName>(rt: &impl Abort, table: &mut SeatTable<B>, number: u64) {
    table.reserve_own(1).expect(rt, "memory");
    table.commit_without_seat(id(number));
}

// Three requests are committed with two seats, and one without.
fn commit_all<B: SeatTableName>(
    rt: &impl Abort,
    table: &mut SeatTable<B>,
    first: &mut Seat<B>,
    second: &mut Seat<B>,
) {
    commit(rt, table, first, 1);
    commit(rt, table, second, 2);
    commit(rt, table, first, 3);
    commit_without_seat(rt, table, 4);
}

// The seat is this processor's, and holds these ids.
fn holds<B: SeatTableName>(rt: &impl Abort, seat: &Seat<B>, processor: u16, ids: &[MsgId]) {
    assert_eq!(rt; seat.processor(), processor);
    assert_eq!(rt; seat.ids(), ids);
}

// The seats of processors 0 and 1 are out, and one request was committed without a seat.
fn is_shown<B: SeatTableName>(rt: &impl Abort, table: &SeatTable<B>) {
    assert_eq!(rt; table.seat_count(), 2);
    assert!(rt; table.is_out(1));
    assert!(rt; !table.is_out(2));
    assert_eq!(rt; table.own(), [id(4)].as_slice());
}

// A second seat of processor 1, while its first one is out, is refused.
fn lends_no_second<B: SeatTableName>(rt: &impl Abort, table: &mut SeatTable<B>)
    requires { 1 < B.processors }
{
    assert_eq!(rt; table.lend(1).err(), Some(Refusal::PassOut));
}

fn lend<B: SeatTableName>(rt: &impl Abort, table: &mut SeatTable<B>, processor: u16) -> Seat<B>
    requires { processor < B.processors }
{
    table.lend(processor).expect(rt, "it isn't out")
}

// A ticket for processor 1 comes to its seat, and one for a processor without a seat is lost.
fn hint<B: SeatTableName>(
    rt: &impl Abort,
    table: &mut SeatTable<B>,
    first: &mut Seat<B>,
    second: &mut Seat<B>,
) {
    table.hint(1, id(5));
    table.hint(2, id(6));
    assert!(rt; first.next_ticket().is_none());
    let ticket = second.next_ticket().expect(rt, "a ticket is there");
    assert_eq!(rt; ticket.processor, 1);
    assert_eq!(rt; ticket.id, id(5));
    assert!(rt; second.next_ticket().is_none());
}

// One seat alone is handed in, and then both.
fn close<B: SeatTableName>(
    rt: &(impl AllocGlobal + Abort),
    table: SeatTable<B>,
    first: Seat<B>,
    second: Seat<B>,
) -> DeliveryIds {
    let seats = vec![in rt.alloc(); first].expect(rt, "memory");
    let Err(SeatsOut { table, seats }) = table.close(seats) else {
        panic!(rt; "a seat is out")
    };
    let mut seats = seats;
    assert!(rt; seats.push(second).is_ok());
    match table.close(seats) {
        Ok(own) => own,
        Err(_still_out) => panic!(rt; "no seat is out"),
    }
}

// The authority of two seats of two processors.
fn work<B: SeatTableName, R: AllocGlobal + Abort>(
    rt: &R,
    unnamed: UnnamedAuthority<GhostIds>,
) -> DeliveryIds
    requires table { table_of unnamed ≡ B.table }
    requires processors { B.processors ≡ 2 }
{
    let mut table = SeatTable::<B>::new(rt.alloc(), unnamed.named());
    let mut first = lend(rt, &mut table, 0);
    let mut second = lend(rt, &mut table, 1);
    commit_all(rt, &mut table, &mut first, &mut second);
    holds(rt, &first, 0, &[id(1), id(3)]);
    holds(rt, &second, 1, &[id(2)]);
    is_shown(rt, &table);
    lends_no_second(rt, &mut table);
    hint(rt, &mut table, &mut first, &mut second);
    close(rt, table, first, second)
}

// Works with both seats by a name that is picked here.
fn run<R: AllocGlobal + Abort>(rt: &R, unnamed: UnnamedAuthority<GhostIds>) -> DeliveryIds {
    work::<Brand, R>(rt, unnamed)
}

#[test]
fn seats_hold_their_commits(rt: HostRuntime) {
    let unnamed = UnnamedAuthority::new(rt.alloc());
    let own = run(&rt, unnamed.expect(&rt, "memory"));
    assert_eq!(rt; own.as_slice(), [id(4)].as_slice());
}
