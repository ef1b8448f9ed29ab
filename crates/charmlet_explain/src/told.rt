//! The report on a script.

use crate::arguments::{Request, Told};
use crate::text::Text;
use charmlet_script::{Setting, explain, well_formed};
use std::alloc::{AllocError, Global};

/// The report on a script, given its first malformed line, if it has one.
pub(crate) fn told_of(
    alloc: Global,
    text: &Text,
    line: Option<u64>,
    request: Request<'_>,
) -> Result<String, AllocError> {
    match (request.told, line) {
        (Told::Line, None) => Ok(String::new(alloc)),
        (Told::Line, Some(line)) => format!(in alloc; "script line {line}\n"),
        (Told::Reason, None) => {
            let script = well_formed(alloc, &text.bytes, request.purpose)?;
            format!(in alloc; "{script}\n")
        }
        (Told::Reason, Some(line)) => {
            let setting = Setting {
                purpose: request.purpose,
                runner: request.runner,
                length: text.length,
            };
            let explanation = explain(alloc, &text.bytes, line, setting)?;
            format!(in alloc; "script line {line}\n{explanation}\n")
        }
    }
}
