//! The program's end after failures that no command line leads to.

use charmlet_cli::{CommandError, ExitReason, Failure, RunError, end_program};
use charmlet_kinds::Counter;
use charmlet_model::Refusal;
use charmlet_script::ReadError;
use std::alloc::AllocError;
use std::io;
use std::io::ErrorKind;
use std::process::Abort;

// After this failure the program ends with this exit status, and says this on standard error.
fn ends_with(
    rt: &(impl AllocGlobal + Abort),
    failure: Failure,
    wanted: u8,
    says: &[u8],
    case: &str,
) {
    let mut errors = Vec::new(rt.alloc());
    let (status, said) = end_program(&Err(failure), &mut errors);
    assert!(rt; said.is_ok(), "{case}");
    assert_eq!(rt; status, wanted, "{case}");
    assert_eq!(rt; errors.as_slice(), says, "{case}");
}

// After this stop the program ends with this exit status, and says this.
fn stops_with(rt: &(impl AllocGlobal + Abort), stop: ExitReason, wanted: u8, says: &str) {
    ends_with(rt, Failure::from(stop), wanted, says.as_bytes(), says);
}

#[test]
fn stops_end_with_1_or_2(rt: HostRuntime) {
    let stop = ExitReason::NotShown(Refusal::Memory);
    stops_with(&rt, stop, 1, "cannot show store\n");
    stops_with(
        &rt,
        ExitReason::NotSurvived,
        1,
        "cannot survive each crash\n",
    );
    let last = ExitReason::MalformedLine(u64::MAX);
    stops_with(&rt, last, 2, "script line 18446744073709551615\n");
}

// The program can't go on after this failure.
fn lacks_memory(rt: &(impl AllocGlobal + Abort), failure: Failure, case: &str) {
    ends_with(rt, failure, 1, b"cannot go on\n".as_slice(), case);
}

#[test]
fn want_of_memory_ends_with_1(rt: HostRuntime) {
    lacks_memory(&rt, Failure::from(CommandError::Memory), "command");
    let error = io::Error::from(ErrorKind::OutOfMemory);
    lacks_memory(&rt, Failure::from(error), "output");
    lacks_memory(
        &rt,
        Failure::from(ExitReason::from(AllocError)),
        "allocation",
    );
    let stop = ExitReason::from(ReadError::Memory);
    lacks_memory(&rt, Failure::from(stop), "script");
    let stop = ExitReason::from(RunError::<Counter>::Memory);
    lacks_memory(&rt, Failure::from(stop), "run");
}
