//! The lines of the output.

ghost use Rattle.std.specs.Prelude.{◌∷◌, [], IfSome};
ghost use Rattle.charmlet_model.specs.Texts.{answer_text};
ghost use Rattle.charmlet_script_output.specs.Writing.{in_lines, memory_text, Writes};

use charmlet_model::{Answer, Refusal, Step};
use std::alloc::Global;
use std::io::{ErrorKind, Write};
use std::{fmt, io};

/// Writes a line and its line feed.
///
/// An error is the writer's, after a beginning of the line; or it is `OutOfMemory`, if there is no
/// memory for the line's text, and nothing of it is written.
pub fn write_line<T: fmt::Display, W: Write>(
    alloc: Global,
    writer: &mut W,
    line: &T,
) -> io::Result<()>
    ensures { IfSome (T.output line.now)
        (λ text. Writes result (W.contents writer.old) (W.contents writer.new)
        (in_lines (text ∷ []))) }
{
    let text = format!(in alloc; "{line}\n")?;
    write_bytes(writer, text.as_bytes())
}

/// Writes that the program is out of memory, which takes no memory. An error is the writer's, after
/// a beginning of the line.
pub fn write_memory_refused<W: Write>(writer: &mut W) -> io::Result<()>
    ensures { Writes result (W.contents writer.old) (W.contents writer.new)
        (in_lines (memory_text ∷ [])) }
{
    write_bytes(writer, b"refused 1 Memory\n")
}

/// Writes an answer in a line. The refusal `Memory` takes none. Fails as [`write_line`] does.
pub fn write_answer<W: Write>(alloc: Global, writer: &mut W, answer: &Answer) -> io::Result<()>
    ensures { Writes result (W.contents writer.old) (W.contents writer.new)
        (in_lines (answer_text answer.now ∷ [])) }
{
    match answer {
        Answer::Refused(Refusal::Memory) => write_memory_refused(writer),
        _ => write_line(alloc, writer, answer),
    }
}

/// Writes the answer to a step. After a flush or a checkpoint, whose answer says what is durable,
/// the writer is flushed, so that a reader of the output has the answer at once. Fails as
/// [`write_line`] does, or if the flush fails, after the whole line.
pub fn write_step_answer<W: Write>(
    alloc: Global,
    writer: &mut W,
    step: &Step,
    answer: &Answer,
) -> io::Result<()>
    ensures { Writes result (W.contents writer.old) (W.contents writer.new)
        (in_lines (answer_text answer.now ∷ [])) }
{
    write_answer(alloc, writer, answer)?;
    match step {
        Step::Flush | Step::Checkpoint => writer.flush(),
        _ => Ok(()),
    }
}

/// Writes these bytes. An interrupted write is tried again. An error is the writer's, after a
/// beginning of the bytes.
fn write_bytes<W: Write>(writer: &mut W, bytes: &[u8]) -> io::Result<()>
    ensures { Writes result (W.contents writer.old) (W.contents writer.new) bytes.now }
{
    let mut rest = bytes;
    for _ in 0..u64::MAX {
        if rest.is_empty() {
            return Ok(());
        }
        match writer.write(rest) {
            Ok(0) => return Err(io::Error::from(ErrorKind::WriteZero)),
            Ok(count) => rest = &rest[count..],
            Err(error) if error.kind() == ErrorKind::Interrupted => {}
            Err(error) => return Err(error),
        }
    }
    Err(io::Error::from(ErrorKind::Interrupted))
}
