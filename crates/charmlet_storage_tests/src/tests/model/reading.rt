//! Reads of scripts by readers that fail, which no file does at will.

use charmlet_script::{ReadError, Runner, read_restart_script, read_script};
use std::alloc::AllocGlobal;
use std::io;
use std::io::{ErrorKind, Read};
use std::process::Abort;

// A reader that gives a line, and fails from then on.
#[derive(Drop)]
struct Failing {
    is_started: bool,
    kind: ErrorKind,
}

impl Read for Failing {
    fn read(&mut self, buf: &mut [u8]) -> io::Result<usize> {
        if self.is_started {
            return Err(io::Error::from(self.kind));
        }
        self.is_started = true;
        let mut line: &[u8] = b"array 0 1\n";
        line.read(buf)
    }
}

// A reader that fails with this kind of error.
fn failing_with(kind: ErrorKind) -> Failing {
    Failing {
        is_started: false,
        kind,
    }
}

// The error of reading a script from a reader that fails with this kind of error.
fn failure(rt: &(impl AllocGlobal + Abort), kind: ErrorKind) -> ReadError {
    read_script(rt.alloc(), &mut failing_with(kind), Runner::Engine).expect_err(rt, "it fails")
}

// The error of reading a restart's script from a reader that fails with this kind of error.
fn failure_of_restart(rt: &(impl AllocGlobal + Abort), kind: ErrorKind) -> ReadError {
    read_restart_script(rt.alloc(), &mut failing_with(kind), Runner::Engine).expect_err(
        rt, "it fails",
    )
}

// Whether a read failed for lack of permission.
fn is_denied(error: ReadError) -> bool {
    matches!(error, ReadError::Failed(error) if error.kind() == ErrorKind::PermissionDenied)
}

// Whether a read failed for lack of memory.
fn is_memory(error: ReadError) -> bool {
    matches!(error, ReadError::Memory)
}

#[test]
fn a_failed_read_is_told(rt: HostRuntime) {
    assert!(rt; is_denied(failure(&rt, ErrorKind::PermissionDenied)));
    assert!(rt; is_memory(failure(&rt, ErrorKind::OutOfMemory)));
    assert!(rt; is_denied(failure_of_restart(&rt, ErrorKind::PermissionDenied)));
}

// A reader that is interrupted before each read that gives something.
#[derive(Drop)]
struct Interrupted {
    bytes: &'static [u8],
    is_interrupted: bool,
}

impl Read for Interrupted {
    fn read(&mut self, buf: &mut [u8]) -> io::Result<usize> {
        self.is_interrupted = !self.is_interrupted;
        if self.is_interrupted {
            return Err(io::Error::from(ErrorKind::Interrupted));
        }
        self.bytes.read(buf)
    }
}

// A script of an array and a delivery. Each read of it is interrupted at first.
fn interrupted_script() -> Interrupted {
    Interrupted {
        bytes: b"array 0 1\ndeliver 0 c7.1\n",
        is_interrupted: false,
    }
}

#[test]
fn an_interrupted_read_is_tried_again(rt: HostRuntime) {
    let read = read_script(rt.alloc(), &mut interrupted_script(), Runner::Engine);
    let lines = read.map(|script| script.lines().len());
    assert!(rt; matches!(lines, Ok(1)));
    let read = read_script(rt.alloc(), &mut interrupted_script(), Runner::Workers);
    assert!(rt; matches!(read, Err(ReadError::Malformed(2))));
}

// The error is told in these words.
fn is_told_so(rt: &(impl AllocGlobal + Abort), error: ReadError, text: &str) {
    let said = format!(in rt.alloc(); "{error}").expect(rt, "memory");
    assert_eq!(rt; said.as_str(), text);
}

#[test]
fn errors_of_readers_are_told_in_words(rt: HostRuntime) {
    is_told_so(&rt, ReadError::Memory, "out of memory");
    is_told_so(&rt, ReadError::Malformed(7), "script line 7");
    let denied = failure(&rt, ErrorKind::PermissionDenied);
    is_told_so(&rt, denied, "cannot read script: permission denied");
}
