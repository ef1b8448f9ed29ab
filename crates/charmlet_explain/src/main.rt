//! `charmlet_explain`: says why the first malformed line of a script is malformed, or which of its
//! calls have no handler. It runs nothing.
#![tactic(auto)]

mod arguments;
mod exit;
mod malformed;
mod text;
mod told;

use crate::arguments::request_of;
use crate::exit::{Failure, end_program};
use crate::malformed::first_malformed;
use crate::text::{Unread, read_text};
use crate::told::told_of;
use std::io::Write;
use std::process::ExitCode;
use std::{env, io};

/// The words of the command line, the first of which is the program's name.
fn words(rt: HostRuntime) -> io::Result<Vec<String>> {
    Ok(env::args(&rt)?.collect(rt.alloc())?)
}

/// Does what the command line asks for, and answers the first malformed line, if there is one. Why
/// the script can't be read is noted.
fn charmlet_explain<'a>(
    rt: HostRuntime,
    words: &'a [String],
    unread: &mut Option<Unread<'a>>,
) -> Result<Option<u64>, Failure> {
    let request = request_of(words)?;
    let text = read_text(&rt, request.script, unread)?;
    let line = first_malformed(rt.alloc(), &text.bytes, request.purpose, request.runner)?;
    let told = told_of(rt.alloc(), &text, line, request)?;
    io::writer(&rt).write_all(told.as_bytes())?;
    Ok(line)
}

/// Ends the program, and says why it read no script. If nothing can be written, only the status
/// tells of a failure.
fn end(
    rt: HostRuntime,
    told: &Result<Option<u64>, Failure>,
    unread: &Option<Unread<'_>>,
) -> ExitCode {
    let (status, _) = end_program(told, &mut rt.stderr());
    if let Some(Unread { name, error }) = unread {
        let _told = eprintln!(rt; "{name}: {error}");
    }
    ExitCode::from(status)
}

/// Does what these words ask for, and ends the program.
fn end_of(rt: HostRuntime, words: &[String]) -> ExitCode {
    let mut unread = None;
    let told = charmlet_explain(rt, words, &mut unread);
    end(rt, &told, &unread)
}

fn main(rt: HostRuntime) -> ExitCode {
    match words(rt) {
        Ok(words) => end_of(rt, words.as_slice()),
        Err(error) => end(rt, &Err(Failure::from(error)), &None),
    }
}
