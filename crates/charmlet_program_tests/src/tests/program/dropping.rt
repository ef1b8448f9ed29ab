//! Objects that a run doesn't need.

use super::noting::{new_notes, noted_counters};
use super::runs::{run_anew, script_of};
use std::process::Abort;

// A script's run over three objects prints this, enters none of them, and drops them all.
fn drops_three(rt: &(impl AllocGlobal + Abort), text: &str, prints: &str) {
    let notes = new_notes(rt);
    let script = script_of(rt, text);
    let mut output = Vec::new(rt.alloc());
    let blanks = noted_counters(rt, &notes, 3);
    drop(run_anew(rt.alloc(), &script, blanks, &mut output));
    assert_eq!(rt; output.as_slice(), prints.as_bytes());
    assert_eq!(rt; notes.entries(), 0);
    assert_eq!(rt; notes.drops(), 3);
}

// There is one object more than the script supplies, even if there is no store.
#[test]
fn all_objects_are_dropped_at_the_end(rt: HostRuntime) {
    drops_three(&rt, "array 0 1\nsupply 1 2\n", "supplied 1 2\n");
    drops_three(
        &rt,
        "pes 65\narray 0 1\nsupply 1 2\n",
        "refused 17 BadPes\n",
    );
}
