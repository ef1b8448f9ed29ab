//! The text on standard error besides the line that says why the program stops.

use charmlet_cli::{Spare, Wanted};
use charmlet_model::Kind;
use charmlet_script::{RestartScript, ScriptText, Setting, explain, nearest};
use std::io;
use std::io::ErrorKind;

/// The known cause of a failure, beyond the line that reports it.
#[derive(Drop)]
pub(crate) enum Cause<'a> {
    /// The disk in this folder failed.
    Folder(&'a str, io::Error),
    /// The script of this name can't be read.
    Script(&'a str, io::Error),
    /// This line of this script is malformed.
    Malformed {
        text: ScriptText,
        line: u64,
        setting: Setting,
    },
    /// Standard output failed.
    Output(io::Error),
    /// The command line's first word isn't a command, but near to this one.
    Mistyped(&'static str),
}

/// The commands of the program.
const COMMANDS: [&str; 5] = ["run", "show", "restart", "lab", "help"];

/// Notes which command is meant, if the first word of a bad command line is near to one.
pub(crate) fn note_command(cause: &mut Option<Cause<'_>>, words: &[String]) {
    let [_, word, ..] = words else {
        return;
    };
    let word = word.as_bytes();
    if word.starts_with(b"-") {
        return;
    }
    let near = nearest(word, &COMMANDS.map(|command: &str| command.as_bytes()));
    for command in COMMANDS {
        if near == Some(command.as_bytes()) && word != command.as_bytes() {
            *cause = Some(Cause::Mistyped(command));
        }
    }
}

/// Notes why the disk in a folder failed first, if it did.
pub(crate) fn note_folder<'a>(
    cause: &mut Option<Cause<'a>>,
    folder: &'a str,
    failure: Option<io::Error>,
) {
    if let Some(error) = failure {
        *cause = Some(Cause::Folder(folder, error));
    }
}

/// Writes on standard error which constructions that were pending at a restart find no blank, since
/// the script supplies fewer.
pub(crate) fn warn_of_constructions(
    rt: HostRuntime,
    constructions: Option<Wanted>,
    script: &RestartScript,
) {
    let Some(constructions) = constructions else {
        return;
    };
    for kind in &Kind::ALL {
        let pending = constructions.of(*kind);
        let supplied = script.blanks(*kind);
        if pending > supplied {
            let _warned = eprintln!(rt;
                "warning: pending constructions of kind {} lack blanks: without 'supply {} {}' \
                neither they nor what waits behind them is delivered",
                kind.number(),
                kind.number(),
                pending - supplied
            );
        }
    }
}

/// Writes on standard error the facts about a folder's half that isn't taken which an operator
/// should know.
pub(crate) fn warn_of_spare(rt: HostRuntime, folder: &str, spare: Spare) {
    let _warned = match spare {
        Spare::Sound => Ok(()),
        Spare::Later { half, generation } => eprintln!(rt;
            "warning: {folder}/half{half} is closed, but of the later generation {generation}; \
            see 'Damaged' in docs/OPERATING.md"
        ),
        Spare::Damaged { half, offset } => eprintln!(rt;
            "warning: {folder}/half{half}, which isn't taken, is damaged at byte {offset}; \
            see 'Damaged' in docs/OPERATING.md"
        ),
    };
}

impl Cause<'_> {
    /// Writes the cause on standard error. If that fails, or there is no memory for the reason of a
    /// malformed line, nothing more is said.
    pub(crate) fn tell(&self, rt: HostRuntime) {
        let _told = match self {
            Cause::Folder(name, error) | Cause::Script(name, error) => {
                eprintln!(rt; "{name}: {error}")
            }
            Cause::Malformed {
                text,
                line,
                setting,
            } => match explain(rt.alloc(), text.as_bytes(), *line, *setting) {
                Ok(explanation) => eprintln!(rt; "{explanation}"),
                Err(_) => Ok(()),
            },
            Cause::Output(error) => eprintln!(rt; "cannot write output: {error}"),
            Cause::Mistyped(command) => eprintln!(rt; "did you mean '{command}'?"),
        };
    }

    /// Whether the cause is that nobody reads standard output any more. Then nothing is said, as by
    /// programs that a signal ends in that case.
    pub(crate) fn is_closed_pipe(&self) -> bool {
        matches!(self, Cause::Output(error) if error.kind() == ErrorKind::BrokenPipe)
    }
}
