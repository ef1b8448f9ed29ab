//! Each call of passes and their table, over a history.

ghost use Rattle.std.specs.Prelude.{◌≡◌, [], OnOk, length};
ghost use Rattle.charmlet_locks.specs.GhostAuth.Naming.{table_of};
ghost use Rattle.charmlet_history.specs.Kept.{core_in};
ghost use Rattle.charmlet_leases.specs.Passes.Passes.{AreCurrent};

use charmlet_history::{History, Request};
use charmlet_leases::{ClientPass, GhostPass, PassTable, PassesOut, steps_keep_passes};
use charmlet_locks::{AuthorityName, UnnamedAuthority};
use charmlet_model::{CONSTRUCT, Elem, Manifest, Refusal, Told};
use std::marker::Brand;
use std::process::Abort;

// An array of counters.
fn one_array(rt: &(impl AllocGlobal + Abort)) -> Manifest {
    match Manifest::of(rt.alloc(), &[(0, 1)]) {
        Ok(Some(manifest)) => manifest,
        _ => panic!(rt; "there is an array"),
    }
}

// The history of a new store of counters.
pub fn new_history(rt: &(impl AllocGlobal + Abort)) -> History
    ensures { (core_in result).history ≡ [] }
{
    let history = History::new(rt.alloc(), one_array(rt), 50, 1);
    history.ok().expect(rt, "one processor is right")
}

// ---- steps that keep all passes current

fn lend<B: AuthorityName>(
    rt: &impl Abort,
    table: &mut PassTable<B>,
    history: &History,
    client: u32,
) -> ClientPass<B>
    requires { AreCurrent table.old (core_in history.now) }
    ensures { AreCurrent table.new (core_in history.now) }
{
    table.lend(history, client).expect(rt, "it isn't out")
}

// A second pass of client 7, while its first one is out, is refused.
fn lends_no_second<B: AuthorityName>(rt: &impl Abort, table: &mut PassTable<B>, history: &History)
    requires { AreCurrent table.old (core_in history.now) }
    ensures { AreCurrent table.new (core_in history.now) }
{
    assert_eq!(rt; table.lend(history, 7).err(), Some(Refusal::PassOut));
}

// The pass's client asks for a counter, in its first request.
fn request<B: AuthorityName>(
    table: &mut PassTable<B>,
    history: &mut History,
    pass: &mut ClientPass<B>,
) -> Result<Told, Refusal>
    requires { AreCurrent table.old (core_in history.old) }
    ensures { AreCurrent table.new (core_in history.new) }
{
    let request = Request {
        number: 1,
        to: Elem { array: 0, index: 0 },
        entry: CONSTRUCT,
        words: &[5],
    };
    table.request(history, pass, &request)
}

// It asks for it, asks again, and then what became of it. The answers are written, each on a line.
fn ask<B: AuthorityName>(
    rt: &impl Abort,
    table: &mut PassTable<B>,
    history: &mut History,
    pass: &mut ClientPass<B>,
    text: &mut String,
)
    requires { AreCurrent table.old (core_in history.old) }
    ensures { AreCurrent table.new (core_in history.new) }
{
    write_answer(rt, text, request(table, history, pass));
    write_answer(rt, text, request(table, history, pass));
    write_answer(rt, text, table.status(history, pass, 1));
}

fn write_answer(rt: &impl Abort, text: &mut String, answered: Result<Told, Refusal>) {
    let told = answered.expect(rt, "it isn't refused");
    write!(text, "{told}\n").expect(rt, "memory");
}

// Makes all events durable.
fn flush<B: AuthorityName>(_table: &PassTable<B>, history: &mut History) -> Result<u64, Refusal>
    requires { AreCurrent _table.now (core_in history.old) }
    ensures current { AreCurrent _table.now (core_in history.new) }
    ensures durable { OnOk result ((core_in history.new).durable
        ≡ length (core_in history.new).history) }
{
    steps_keep_passes();
    history.facts();
    history.flush()
}

// Makes all events durable, and tells the clients of these passes.
fn tell<B: AuthorityName>(
    rt: &impl Abort,
    table: &mut PassTable<B>,
    history: &mut History,
    passes: &mut [ClientPass<B>],
)
    requires { AreCurrent table.old (core_in history.old) }
{
    flush(table, history).expect(rt, "the log has room");
    table.tell(history, passes);
}

// ---- what passes and their table show

// Writes a pass's client, how many accepts it has, the last one, and its knowledge of request 1.
fn write_pass<B: AuthorityName>(rt: &impl Abort, pass: &ClientPass<B>, text: &mut String) {
    let known = pass.known(1).expect(rt, "memory");
    let (client, count, last) = (pass.client(), pass.accept_count(), pass.last());
    write!(text, "client {client}: {count} up to {last}, {known}\n").expect(rt, "memory");
}

fn write_passes<B: AuthorityName>(rt: &impl Abort, passes: &[ClientPass<B>], text: &mut String) {
    for pass in passes {
        write_pass(rt, pass, text);
    }
}

// The passes of clients 7 and 8 are out.
fn is_shown<B: AuthorityName>(rt: &impl Abort, table: &PassTable<B>) {
    assert_eq!(rt; table.pass_count(), 2);
    assert!(rt; table.is_out(8));
    assert!(rt; !table.is_out(9));
}

// All passes but the last one are handed in, and then all.
fn close<B: AuthorityName>(rt: &impl Abort, table: PassTable<B>, passes: Vec<ClientPass<B>>) {
    let mut passes = passes;
    let last = passes.pop().expect(rt, "there are two");
    let Err(PassesOut { table, passes }) = table.close(passes) else {
        panic!(rt; "a pass is out")
    };
    let mut passes = passes;
    assert!(rt; passes.push(last).is_ok());
    assert!(rt; table.close(passes).is_ok());
}

// ---- a story

// Two passes are lent. The first client asks; all that it did is made durable, and both are told.
fn serve<B: AuthorityName, R: AllocGlobal + Abort>(
    rt: &R,
    unnamed: UnnamedAuthority<GhostPass>,
    text: &mut String,
)
    requires { table_of unnamed ≡ B.table }
{
    let mut history = new_history(rt);
    let mut table = PassTable::<B>::new(rt.alloc(), unnamed.named());
    let mut first = lend(rt, &mut table, &history, 7);
    ask(rt, &mut table, &mut history, &mut first, text);
    lends_no_second(rt, &mut table, &history);
    let second = lend(rt, &mut table, &history, 8);
    is_shown(rt, &table);
    let mut passes = vec![in rt.alloc(); first, second].expect(rt, "memory");
    tell(rt, &mut table, &mut history, passes.as_mut_slice());
    write_passes(rt, passes.as_slice(), text);
    close(rt, table, passes);
}

// Serves both passes by a name that is picked here.
fn run<R: AllocGlobal + Abort>(rt: &R, unnamed: UnnamedAuthority<GhostPass>, text: &mut String) {
    serve::<Brand, R>(rt, unnamed, text)
}

const ANSWERS: &str = "told unknown\n\
told unknown\n\
told unknown\n\
client 7: 1 up to 1, told accepted\n\
client 8: 0 up to 0, told unknown\n";

#[test]
fn passes_are_told_what_is_durable(rt: HostRuntime) {
    let mut text = String::new(rt.alloc());
    let unnamed = UnnamedAuthority::new(rt.alloc());
    run(&rt, unnamed.expect(&rt, "memory"), &mut text);
    assert_eq!(rt; text.as_str(), ANSWERS);
}
