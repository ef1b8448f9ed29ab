//! Standard output.

use crate::cause::Cause;
use charmlet_cli::ExitReason;
use std::io;
use std::io::{IsTerminal, Write};

/// How many bytes of output are held back until there are more, or until the writer is flushed: a
/// block if the output goes to a file or another program, and none if it goes to a terminal.
pub(crate) fn block(rt: HostRuntime) -> usize {
    if rt.stdout().is_terminal() { 0 } else { 8192 }
}

/// The beginnings of the lines that say why no store is opened: `Damaged`, `NothingHere` and
/// `AlreadyHere`. No line of a script is answered by them.
const OPENINGS: [&[u8]; 3] = [b"refused 14 ", b"refused 15 ", b"refused 20 "];

/// Whether a line of the output says that a line of the script is refused.
fn is_refusal(line: &[u8]) -> bool {
    line.starts_with(b"refused ") && !OPENINGS.iter().any(|opening| line.starts_with(opening))
}

/// An output that notes the cause of its first failure. A strict output also fails at the first
/// refusal, once it is written, so that no later line is run.
#[derive(Drop)]
pub(crate) struct Output<W: Write> {
    writer: W,
    is_strict: bool,
    is_refused: bool,
    failure: Option<io::Error>,
}

impl<W: Write + Drop> Output<W> {
    ghost use Rattle.std.specs.Prelude.{◌≡◌};

    /// An output that goes to this writer.
    pub(crate) fn new(writer: W, is_strict: bool) -> Self {
        Output {
            writer,
            is_strict,
            is_refused: false,
            failure: None,
        }
    }

    /// The writer's answer, noted if it is the first failure.
    fn noted<T: Drop>(&mut self, done: io::Result<T>) -> io::Result<T>
        ensures { result ≡ done }
    {
        if let Err(error) = &done {
            self.failure = self.failure.or(Some(*error));
        }
        done
    }

    /// Ends a run, once its whole output is written. The cause is noted if that fails.
    pub(crate) fn end(
        mut self,
        ran: Result<(), ExitReason>,
        cause: &mut Option<Cause<'_>>,
    ) -> Result<(), ExitReason> {
        let flushed = self.flush();
        if let Some(error) = self.failure {
            *cause = Some(Cause::Output(error));
        }
        flushed?;
        if self.is_refused {
            return Err(ExitReason::AtRefusal);
        }
        ran
    }
}

impl<W: Write + Drop> Write for Output<W> {
    fn write(&mut self, bytes: &[u8]) -> io::Result<usize> {
        if !self.is_strict || !is_refusal(bytes) {
            let written = self.writer.write(bytes);
            return self.noted(written);
        }
        let written = self.writer.write_all(bytes);
        self.noted(written)?;
        self.is_refused = true;
        Err(io::Error::other("stopped at a refusal"))
    }

    fn flush(&mut self) -> io::Result<()> {
        let flushed = self.writer.flush();
        self.noted(flushed)
    }
}
