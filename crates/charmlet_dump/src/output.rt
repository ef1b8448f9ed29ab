//! The lines of a dump.

ghost use Rattle.std.specs.Prelude.{◌∷◌, [], ◌++◌, IfSome};
ghost use Rattle.charmlet_dump.specs.Facts.{Refused, fact_in};
ghost use Rattle.charmlet_dump.specs.Lines.{lines_of};
ghost use Rattle.charmlet_dump.specs.Writing.{Writes};
ghost use Rattle.charmlet_model.specs.declared.refusal.Refusal.TheVariants.{Memory};

use crate::json::JsonLine;
use crate::lines::{Fact, PlainLine};
use charmlet_model::Refusal;
use std::alloc::Global;
use std::io::{ErrorKind, Write};
use std::{fmt, io};

/// The form of a dump's lines.
#[derive(Clone, Copy, Debug, PartialEq, Eq)]
pub enum Form {
    Plain,
    Json,
}

/// Writes a fact in its line, with a line feed.
///
/// An error is the writer's, after a beginning of the line; or there is no memory for the line's
/// text, and nothing of it is written.
pub fn write_fact<W: Write>(
    alloc: Global,
    writer: &mut W,
    form: Form,
    fact: Fact<'_>,
) -> io::Result<()>
    ensures { Writes result (W.contents writer.old) (W.contents writer.new)
        (lines_of form (fact_in fact.entry ∷ [])) }
{
    match form {
        Form::Plain => write_line(alloc, writer, &PlainLine(fact)),
        Form::Json => write_line(alloc, writer, &JsonLine(fact)),
    }
}

/// Writes why nothing is dumped, as a fact. The fact of `Memory` takes no memory.
pub fn write_refusal<W: Write>(
    alloc: Global,
    writer: &mut W,
    form: Form,
    refusal: Refusal,
) -> io::Result<()>
    ensures { Writes result (W.contents writer.old) (W.contents writer.new)
        (lines_of form (Refused refusal ∷ [])) }
{
    match refusal {
        Refusal::Memory => write_memory_refused(writer, form),
        _ => write_fact(alloc, writer, form, Fact::Refused { refusal }),
    }
}

/// Writes that the program is out of memory, which takes no memory.
fn write_memory_refused<W: Write>(writer: &mut W, form: Form) -> io::Result<()>
    ensures { Writes result (W.contents writer.old) (W.contents writer.new)
        (lines_of form (Refused Memory ∷ [])) }
{
    match form {
        Form::Plain => write_bytes(writer, b"refused 1 Memory\n"),
        Form::Json => write_bytes(writer, b"{\"refused\":1,\"name\":\"Memory\"}\n"),
    }
}

/// Writes a line and its line feed.
fn write_line<T: fmt::Display, W: Write>(alloc: Global, writer: &mut W, line: &T) -> io::Result<()>
    ensures { IfSome (T.output line.now)
        (λ text. Writes result (W.contents writer.old) (W.contents writer.new)
        (text ++ 10 ∷ [])) }
{
    let text = format!(in alloc; "{line}\n")?;
    write_bytes(writer, text.as_bytes())
}

/// Writes these bytes. An interrupted write is tried again. An error is the writer's, after a
/// beginning of the bytes.
fn write_bytes<W: Write>(writer: &mut W, bytes: &[u8]) -> io::Result<()>
    ensures { Writes result (W.contents writer.old) (W.contents writer.new) bytes.now }
{
    let mut rest = bytes;
    for _ in 0..u64::MAX {
        if rest.is_empty() {
            return Ok(());
        }
        match writer.write(rest) {
            Ok(0) => return Err(io::Error::from(ErrorKind::WriteZero)),
            Ok(count) => rest = &rest[count..],
            Err(error) if error.kind() == ErrorKind::Interrupted => {}
            Err(error) => return Err(error),
        }
    }
    Err(io::Error::from(ErrorKind::Interrupted))
}
