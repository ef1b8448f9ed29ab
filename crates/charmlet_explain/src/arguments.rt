//! The command line, and the request that it makes.

use crate::exit::Failure;
use charmlet_script::{Purpose, Runner};
use std::convert::AsStr;

/// How much to tell of a malformed line.
#[derive(Clone, Copy, Debug, PartialEq, Eq)]
pub(crate) enum Told {
    /// The line's number alone, and nothing for a script without a malformed line.
    Line,
    /// The line itself, and why it is malformed.
    Reason,
}

/// The request that a command line makes.
#[derive(Clone, Copy, Debug)]
pub(crate) struct Request<'a> {
    /// The script's file, or `-` for standard input.
    pub script: &'a str,
    pub purpose: Purpose,
    pub runner: Runner,
    pub told: Told,
}

/// The request that the words make; the first word is the program's name. Options come before the
/// script, and each may be repeated.
pub(crate) fn request_of<'a, S: AsStr>(words: &'a [S]) -> Result<Request<'a>, Failure> {
    let [_, options @ .., script] = words else {
        return Err(Failure::BadLine);
    };
    let script = script.as_str();
    if script != "-" && script.as_bytes().starts_with(b"-") {
        return Err(Failure::BadLine);
    }
    let mut request = Request {
        script,
        purpose: Purpose::Run,
        runner: Runner::Engine,
        told: Told::Reason,
    };
    for option in options {
        match option.as_str() {
            "--restart" => request.purpose = Purpose::Restart,
            "--workers" => request.runner = Runner::Workers,
            "--line" => request.told = Told::Line,
            _ => return Err(Failure::BadLine),
        }
    }
    Ok(request)
}
