//! The output if the writer fails.

use super::runs::{counters, run_anew, script_of};
use charmlet_cli::RunError;
use charmlet_script::Script;
use std::io;
use std::io::{ErrorKind, Write};
use std::process::Abort;

// A client is told what is durable of its requests.
const FIRST_RUN: &str = "\
array 0 1
supply 1 1
req 7 1 0 0 65535 5
deliver 0 c7.1
flush
status 7 1
req 7 2 0 0 0 3
deliver 0 c7.2
status 7 2
flush
status 7 2
status 7 1
";

const PRINTED: &str = "\
supplied 1 1
told unknown
delivered c7.1
flushed 2
told replied
told unknown
delivered c7.2
told unknown
flushed 4
told replied 8
told replied
";

// An output that takes at most three bytes at a time, is interrupted before each time, and has room
// for a number of bytes.
#[derive(Drop)]
struct Trickle {
    taken: Vec<u8>,
    room: usize,
    is_ready: bool,
}

impl Write for Trickle {
    fn write(&mut self, bytes: &[u8]) -> io::Result<usize> {
        self.is_ready = !self.is_ready;
        if !self.is_ready {
            return Err(io::Error::from(ErrorKind::Interrupted));
        }
        let count = bytes.len().min(self.room).min(3);
        self.taken.extend_from_slice(&bytes[..count])?;
        self.room -= count;
        Ok(count)
    }

    fn flush(&mut self) -> io::Result<()> {
        Ok(())
    }
}

// With room for `room` bytes of the script's output, only these are written, and the run goes to
// its end if they are all.
fn fills(rt: &(impl AllocGlobal + Abort), script: &Script, wanted: &[u8], room: usize) {
    let mut output = Trickle {
        taken: Vec::new(rt.alloc()),
        room,
        is_ready: true,
    };
    let ran = run_anew(rt.alloc(), script, counters(rt, 1), &mut output);
    assert!(rt; room <= wanted.len());
    assert_eq!(rt; output.taken.as_slice(), &wanted[..room]);
    let is_whole = room == wanted.len();
    assert!(rt; ran.result.is_ok() == is_whole);
    assert!(rt; is_whole || matches!(&ran.result, Err(RunError::Output(_))));
}

#[test]
fn all_is_written_that_there_is_room_for(rt: HostRuntime) {
    let script = script_of(&rt, FIRST_RUN);
    for room in 0..=PRINTED.len() {
        fills(&rt, &script, PRINTED.as_bytes(), room);
    }
}
