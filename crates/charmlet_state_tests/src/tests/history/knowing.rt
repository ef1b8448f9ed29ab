//! The knowledge of a pass after it was told less than before, which no history does.

use super::passes::new_history;
use charmlet_model::{Told, Words};
use charmlet_requests::{ClientPass, Passes};
use std::process::Abort;

// The pass of client 7 of a new store.
fn new_pass(rt: &(impl AllocGlobal + Abort)) -> ClientPass {
    let history = new_history(rt);
    let mut passes = Passes::new(rt.alloc());
    passes.lend(&history, 7).ok().expect(rt, "it is not out")
}

// The reply of one word, 5.
fn replied(rt: &(impl AllocGlobal + Abort)) -> Told {
    let words = Words::from_slice(rt.alloc(), &[5]);
    Told::Replied(words.expect(rt, "memory"))
}

// Writes what the pass knows about this request.
fn write_known(rt: &impl Abort, text: &mut String, pass: &ClientPass, number: u64) {
    let known = pass.known(number).expect(rt, "memory");
    assert_eq!(rt; pass.knows(number), !matches!(&known, Told::Unknown));
    write!(text, "{known}, ").expect(rt, "memory");
}

// What the pass knows about requests 1 to 4.
fn knows(rt: &(impl AllocGlobal + Abort), pass: &ClientPass, wanted: &str) {
    let mut text = String::new(rt.alloc());
    for number in 1..5 {
        write_known(rt, &mut text, pass, number);
    }
    assert_eq!(rt; text.as_str(), wanted);
}

// A pass that is told these two answers, in this order, about these requests, knows this about
// requests 1 to 4.
fn knows_after(
    rt: &(impl AllocGlobal + Abort),
    first: (u64, Told),
    then: (u64, Told),
    wanted: &str,
) {
    let mut pass = new_pass(rt);
    pass.hear(first.0, &first.1).expect(rt, "memory");
    pass.hear(then.0, &then.1).expect(rt, "memory");
    knows(rt, &pass, wanted);
}

#[test]
fn a_pass_knows_no_less_than_before(rt: HostRuntime) {
    knows_after(
        &rt,
        (3, Told::Past),
        (2, Told::Accepted),
        "told past, told past, told past, told unknown, ",
    );
    knows_after(
        &rt,
        (3, replied(&rt)),
        (3, Told::Accepted),
        "told accepted, told accepted, told replied 5, told unknown, ",
    );
    knows_after(
        &rt,
        (3, Told::Accepted),
        (3, Told::Unknown),
        "told accepted, told accepted, told accepted, told unknown, ",
    );
}
