//! The command line of `charmlet`, and the command that it asks for.

ghost use Rattle.std.specs.Prelude.{◌≡◌, map, IfOk, IfErr, option_map, option_and_then, false};
ghost use Rattle.clap.specs.Matches.{found_of};
ghost use Rattle.clap.specs.Simple.{app_of, subcommand_rows_of};
ghost use Rattle.clap.specs.Walk.{rows_of, rule_of};
ghost use Rattle.charmlet_cli.specs.Command.CommandLine.{Asks, AsksNothing, asked_by, asked_in, charmlet_line, dir_option, folder_word, has_globals, is_on, lab_line, lab_of, needed_word, pes_option, restart_line, restart_of, run_line, run_of, script_word, show_line, show_of, strict_flag, workers_flag};

use clap::error::ErrorKind;
use clap::{Arg, ArgAction, ArgMatches, value_parser};
use std::alloc::{AllocError, Global};
use std::convert::AsStr;
use thiserror::Error;

/// The command that a command line asks for.
#[derive(Clone, Copy, Debug, PartialEq, Eq)]
pub enum Command<'a> {
    /// Run the script in the file `script`, over a store in the folder `dir`, or in memory without
    /// one; with `workers`, by worker threads; with `strict`, up to the first refused line.
    Run {
        script: &'a str,
        dir: Option<&'a str>,
        workers: bool,
        strict: bool,
    },
    /// Show the store in the folder `dir`.
    Show {
        dir: &'a str,
    },
    /// Restart the store in the folder `dir` on `processors` processors, and run the script in the
    /// file `script` on it; with `workers`, by worker threads; with `strict`, up to the first
    /// refused line. The number is any 16-bit number: the command line doesn't check that a store
    /// can have that many.
    Restart {
        dir: &'a str,
        script: &'a str,
        processors: u16,
        workers: bool,
        strict: bool,
    },
    /// Try the crashes of the script in the file `script`.
    Lab {
        script: &'a str,
    },
}

/// Why a command line asks for nothing.
#[derive(Debug, Drop, Error)]
pub enum CommandError {
    /// Memory ran out.
    #[error("out of memory")]
    Memory,
    /// A bad line or a call for help, with the text to print. The program ends with status 2.
    #[error("{0}")]
    Line(clap::Error),
}

impl From<AllocError> for CommandError {
    ghost use Rattle.std.specs.Prelude.{◌≡◌};
    ghost use Rattle.charmlet_cli.specs.declared.command.CommandError.TheVariants.{Memory};

    ghost from_gives = { λ _ e. e ≡ Memory };

    fn from(_error: AllocError) -> CommandError {
        CommandError::Memory
    }
}

impl From<clap::Error> for CommandError {
    ghost use Rattle.charmlet_cli.specs.Command.CommandLine.{IsErrorOf};

    ghost from_gives = { IsErrorOf };

    fn from(error: clap::Error) -> CommandError {
        match error.kind() {
            ErrorKind::OutOfMemory => CommandError::Memory,
            _ => CommandError::Line(error),
        }
    }
}

const ABOUT: &str = "A runtime of migratable objects, driven by scripts";

const LONG_ABOUT: &str = "\
A runtime of migratable objects, driven by scripts.

A script says which objects there are, and on how many processors; what clients ask
of them; when messages are delivered; and where elements move. 'charmlet help run'
says what its lines do, and docs/SCRIPT.md the whole.";

const STATUSES: &str = "\
Exit status:
  0  the script ran to its end, or the store was shown; a refused line of a script is an
     answer like any other
  1  no store could be created or shown or came back, a crash was not survived, a line was
     refused with --strict, or memory or the output failed
  2  a bad command line, a call for help, or a script that is malformed or can't be read";

const RUN_ABOUT: &str = "Run a script, and print what each line answers before the next one runs";

const RUN_LONG_ABOUT: &str = "\
Run a script, and print what each line answers before the next one runs.

Lines, of which 'array', 'pes' and 'handler' come first:
  array A K            there is an array A of objects of kind K, 1 to 6; at most 64 arrays
  pes N                there are N processors, 1 to 64, numbered from 0; without it 1
  handler NAME A E     NAME, 1 to 32 letters, stands for entry E of array A
  supply K N           N blank objects of kind K, at most 10000, come to the stock
  req C N A I E W..    client C's request N: entry E of element I of array A, with words W..
  call C N NAME I W..  the same to element I, by the array and the entry of NAME
  status C N           client C asks what became of its request N
  deliver PE ID        processor PE delivers the pending message ID
  drain N              delivers what can be delivered, oldest first, up to N messages, at
                       most 1000000, or up to a refusal
  move A I PE          element I of array A goes to processor PE
  flush                makes all events durable
  checkpoint           writes an image of the whole store, which takes the place of its log
  state A I            shows where element I of array A stands, and its state
  pending              shows the pending messages
  census               shows where the objects of each kind are

A request, a call and a status print what is durable of the request: 'told unknown',
'told accepted', 'told replied' with the words of the reply, or 'told past' once it has left
the client's window of eight. A client may have eight requests without a reply.
Message cC.N is number N of client C, and eA.I.N number N of element I of array A. A message
is delivered where its receiver stands, at first processor (A + I) mod the number of them.
Constructing an element takes a blank of its kind, and so does moving it to another processor.
Kinds are 1 counter, 2 ring, 3 account, 4 sum, 5 tree and 6 tape; entry 65535 constructs
an element, and docs/MODEL.md says what the other entries do. Empty lines and those that
begin with # are skipped.
A refused line prints 'refused', the refusal's number, its name and its values. It changes
nothing, but that a drain keeps what it delivered before, and that '2 Device', a failure of
the disk, halts the store: what was durable stays, and each later step is refused. The run
goes on.
A script is ASCII, of at most 1048576 bytes. Where a line is malformed, standard error names
the first one, as 'script line L', and no line is run.";

const RUN_STATUSES: &str = "\
Exit status:
  0  the script ran to its end; a refused line is an answer like any other
  1  no store could be created, a line was refused with --strict, or memory or the output
     failed
  2  a bad command line, a call for help, or a script that is malformed or can't be read";

const DIR_HELP: &str = "Keep the store in the files half0 and half1 of this folder";

const DIR_LONG_HELP: &str = "\
Keep the store in the files half0 and half1 of this folder, which has to exist;
without it the store lives in memory. A store that is there already is refused";

const SHOW_ABOUT: &str = "Show what stands in the folder of a store, and change nothing";

const SHOW_LONG_ABOUT: &str = "\
Show what stands in the folder of a store, and change nothing.

Lines:
  half H generation G base B log L  the file halfH is the later one, with an image of
                                    generation G, made after B events, and a log of L events
  array A kind K version V          there is an array A of objects of kind K, in version V
  wanted K C                        a restart needs C blank objects of kind K

Where nothing can be shown there is one line: 'refused 15 NothingHere' where the folder has no
store, 'refused 14 Damaged H O' where the byte at offset O of the file halfH isn't as the
format says, 'refused 2 Device' where the folder isn't there or can't be read, or
'refused 1 Memory'.";

const SHOW_STATUSES: &str = "\
Exit status:
  0  the store was shown
  1  the store could not be shown, or memory or the output failed
  2  a bad command line, or a call for help";

const FOLDER_HELP: &str = "The folder of the store, with the files half0 and half1";

const RESTART_ABOUT: &str = "Restart the store in a folder, and run a script on it";

const RESTART_LONG_ABOUT: &str = "\
Restart the store in a folder, and run a script on it.

The store comes back as its files have it, with all events that were durable. If they have
older versions of its kinds, it goes on in the newest ones, and its folder gets an image of the
next generation for that. First this is printed:

  restarted generation G events E on N  the image is of generation G, E events came back, and
                                        the store is on N processors

and then what each line answers before the next one runs. The lines are those of
'charmlet help run' but 'array' and 'pes', which are malformed here: the arrays come back with
the store, and --pes gives the number of processors, which may be another than before. Handlers
aren't stored, so 'handler' lines come first here too. A script may have no line at all.

Where no store comes back, there is one line, and no line of the script is run:
'refused 15 NothingHere' where the folder has no store, 'refused 14 Damaged H O' where what
stands at offset O of the file halfH isn't as the format says or can't have happened,
'refused 17 BadPes' where N isn't 1 to 64, 'refused 2 Device' where the folder isn't there or
the disk fails, 'refused 12 ImageFull' where such an image would be past a limit, or
'refused 1 Memory'.";

const RESTART_STATUSES: &str = "\
Exit status:
  0  the script ran to its end; a refused line is an answer like any other
  1  no store came back, a line was refused with --strict, or memory or the output failed
  2  a bad command line, a call for help, or a script that is malformed or can't be read";

const LAB_ABOUT: &str = "Try the crashes of a script, and count those that are not survived";

const LAB_LONG_ABOUT: &str = "\
Try the crashes of a script, and count those that are not survived.

The script is run on a disk in memory that fails from its first write or sync on, then on one
that fails from the second on, and so on, until a run ends without a failure. After each of
these stops a crash leaves what was not synced in one of six ways: as it was before, as it was
written, as zeros, as ones, as sevens, or half written. From each of them the store is
restarted, on as many processors as the script has, and its world is compared with the one
that a plain program makes of the run's first events. In the end this is printed:

  lab stops S outcomes O bad B  S runs were stopped, O restarts were tried, and B of them came
                                to no world of the run, or to one that lacks what was durable

What the lines of the script print is not.";

const LAB_STATUSES: &str = "\
Exit status:
  0  each crash was survived
  1  one was not, no store could be created, or memory or the output failed
  2  a bad command line, a call for help, or a script that is malformed or can't be read";

const PES_HELP: &str = "How many processors the store is on, 1 to 64, numbered from 0";

const WORKERS_HELP: &str = "Deliver messages by worker threads, one for each processor";

const WORKERS_LONG_HELP: &str = "\
Deliver messages by worker threads, one for each processor; a 'deliver' line of the
script is malformed then";

const STRICT_HELP: &str = "End with status 1 at the first line that is refused";

/// Makes a word of the command line required.
fn needed<'a>(word: Arg<'a>) -> Arg<'a>
    ensures reads { rule_of result ≡ needed_word (rule_of word.entry) }
    ensures local { result.global ≡ word.entry.global }
{
    word.required(true).action(ArgAction::Set)
}

/// `SCRIPT`.
fn script_arg<'a>(alloc: Global) -> Arg<'a>
    ensures reads { rule_of result ≡ script_word }
    ensures local { result.global ≡ false }
{
    needed(
        Arg::new(alloc, "script")
            .value_name("SCRIPT")
            .help("The file of the script"),
    )
}

/// `DIR`.
fn folder_arg<'a>(alloc: Global) -> Arg<'a>
    ensures reads { rule_of result ≡ folder_word }
    ensures local { result.global ≡ false }
{
    needed(
        Arg::new(alloc, "folder")
            .value_name("DIR")
            .help(FOLDER_HELP),
    )
}

/// `--dir DIR`.
fn dir_arg<'a>(alloc: Global) -> Arg<'a>
    ensures reads { rule_of result ≡ dir_option }
    ensures local { result.global ≡ false }
{
    Arg::new(alloc, "dir")
        .long("dir")
        .value_name("DIR")
        .help(DIR_HELP)
        .long_help(DIR_LONG_HELP)
        .action(ArgAction::Set)
}

/// `--pes N`.
fn pes_arg<'a>(alloc: Global) -> Arg<'a>
    ensures reads { rule_of result ≡ pes_option }
    ensures local { result.global ≡ false }
{
    Arg::new(alloc, "pes")
        .long("pes")
        .value_name("N")
        .help(PES_HELP)
        .action(ArgAction::Set)
        .value_parser(value_parser!(u16))
        .default_value("1")
}

/// `--workers`.
fn workers_arg<'a>(alloc: Global) -> Arg<'a>
    ensures reads { rule_of result ≡ workers_flag }
    ensures local { result.global ≡ false }
{
    Arg::new(alloc, "workers")
        .long("workers")
        .help(WORKERS_HELP)
        .long_help(WORKERS_LONG_HELP)
        .action(ArgAction::SetTrue)
}

/// `--strict`.
fn strict_arg<'a>(alloc: Global) -> Arg<'a>
    ensures reads { rule_of result ≡ strict_flag }
    ensures local { result.global ≡ false }
{
    Arg::new(alloc, "strict")
        .long("strict")
        .help(STRICT_HELP)
        .action(ArgAction::SetTrue)
}

/// `run SCRIPT [--dir DIR] [--workers] [--strict]`.
fn run_parser<'a>(alloc: Global) -> Result<clap::Command<'a>, AllocError>
    ensures reads { IfOk result (λ parser. app_of parser ≡ run_line) }
    ensures local { IfOk result (λ parser. has_globals parser ≡ false) }
{
    clap::Command::new(alloc, "run")
        .about(RUN_ABOUT)
        .long_about(RUN_LONG_ABOUT)
        .after_help(RUN_STATUSES)
        .arg(script_arg(alloc))?
        .arg(dir_arg(alloc))?
        .arg(workers_arg(alloc))?
        .arg(strict_arg(alloc))
}

/// `show DIR`.
fn show_parser<'a>(alloc: Global) -> Result<clap::Command<'a>, AllocError>
    ensures reads { IfOk result (λ parser. app_of parser ≡ show_line) }
    ensures local { IfOk result (λ parser. has_globals parser ≡ false) }
{
    clap::Command::new(alloc, "show")
        .about(SHOW_ABOUT)
        .long_about(SHOW_LONG_ABOUT)
        .after_help(SHOW_STATUSES)
        .arg(folder_arg(alloc))
}

/// `restart DIR SCRIPT [--pes N] [--workers] [--strict]`.
fn restart_parser<'a>(alloc: Global) -> Result<clap::Command<'a>, AllocError>
    ensures reads { IfOk result (λ parser. app_of parser ≡ restart_line) }
    ensures local { IfOk result (λ parser. has_globals parser ≡ false) }
{
    clap::Command::new(alloc, "restart")
        .about(RESTART_ABOUT)
        .long_about(RESTART_LONG_ABOUT)
        .after_help(RESTART_STATUSES)
        .arg(pes_arg(alloc))?
        .arg(workers_arg(alloc))?
        .arg(strict_arg(alloc))?
        .arg(folder_arg(alloc))?
        .arg(script_arg(alloc))
}

/// `lab SCRIPT`.
fn lab_parser<'a>(alloc: Global) -> Result<clap::Command<'a>, AllocError>
    ensures reads { IfOk result (λ parser. app_of parser ≡ lab_line) }
    ensures local { IfOk result (λ parser. has_globals parser ≡ false) }
{
    clap::Command::new(alloc, "lab")
        .about(LAB_ABOUT)
        .long_about(LAB_LONG_ABOUT)
        .after_help(LAB_STATUSES)
        .arg(script_arg(alloc))
}

/// The whole command line.
fn parser<'a>(alloc: Global) -> Result<clap::Command<'a>, AllocError>
    ensures { IfOk result (λ parser. app_of parser ≡ charmlet_line) }
{
    clap::Command::new(alloc, "charmlet")
        .about(ABOUT)
        .long_about(LONG_ABOUT)
        .after_help(STATUSES)
        .subcommand_required(true)
        .subcommand(run_parser(alloc)?)?
        .subcommand(show_parser(alloc)?)?
        .subcommand(restart_parser(alloc)?)?
        .subcommand(lab_parser(alloc)?)
}

/// Whether a flag of a line is on. (Clap's own call for it is specified only for the words `true`
/// and `false`.)
fn is_on(values: &ArgMatches<'_>, flag: &str) -> bool
    ensures { result ≡ is_on flag.now (rows_of (found_of values.now)) }
{
    values.get_one::<bool>(flag).unwrap_or(false)
}

/// The `run` command with the values of its line.
fn run_in<'a>(values: &ArgMatches<'a>) -> Option<Command<'a>>
    ensures { option_map asked_in result ≡ run_of (rows_of (found_of values.now)) }
{
    let script = values.get_str("script")?;
    let dir = values.get_str("dir");
    let workers = is_on(values, "workers");
    let strict = is_on(values, "strict");
    Some(Command::Run {
        script,
        dir,
        workers,
        strict,
    })
}

/// The `show` command with the values of its line.
fn show_in<'a>(values: &ArgMatches<'a>) -> Option<Command<'a>>
    ensures { option_map asked_in result ≡ show_of (rows_of (found_of values.now)) }
{
    let dir = values.get_str("folder")?;
    Some(Command::Show { dir })
}

/// The `restart` command with the values of its line.
fn restart_in<'a>(values: &ArgMatches<'a>) -> Option<Command<'a>>
    ensures { option_map asked_in result ≡ restart_of (rows_of (found_of values.now)) }
{
    let dir = values.get_str("folder")?;
    let script = values.get_str("script")?;
    let processors = values.get_one::<u16>("pes")?;
    let workers = is_on(values, "workers");
    let strict = is_on(values, "strict");
    Some(Command::Restart {
        dir,
        script,
        processors,
        workers,
        strict,
    })
}

/// The `lab` command with the values of its line.
fn lab_in<'a>(values: &ArgMatches<'a>) -> Option<Command<'a>>
    ensures { option_map asked_in result ≡ lab_of (rows_of (found_of values.now)) }
{
    let script = values.get_str("script")?;
    Some(Command::Lab { script })
}

/// The command that the matches of a line ask for.
fn command_in<'a>(matches: &ArgMatches<'a>) -> Option<Command<'a>>
    ensures { option_map asked_in result
        ≡ option_and_then asked_by (subcommand_rows_of matches.now) }
{
    let (name, values) = matches.subcommand()?;
    if name == "run" {
        run_in(values)
    } else if name == "show" {
        show_in(values)
    } else if name == "restart" {
        restart_in(values)
    } else if name == "lab" {
        lab_in(values)
    } else {
        None
    }
}

/// The command that the words ask for; the first word is the program's name. The commands are
/// `run SCRIPT`, with or without `--dir DIR`, `--workers` and `--strict`; `show DIR`;
/// `restart DIR SCRIPT`, with or without `--pes N`, `--workers` and `--strict`; and `lab SCRIPT`. N
/// is a 16-bit number, and 1 if it isn't given. Every other line, including a call for help, is
/// answered by `CommandError::Line`, with clap's text and a kind of error that clap finds in the
/// words, and lack of memory by `CommandError::Memory`.
pub fn command_of<'a, S: AsStr>(alloc: Global, words: &'a [S]) -> Result<Command<'a>, CommandError>
    ensures ok { IfOk result (Asks (map S.text words.entry.now)) }
    ensures err { IfErr result (AsksNothing (map S.text words.entry.now)) }
{
    let mut parser = parser(alloc)?;
    let matches = parser.try_get_matches_from_mut(words)?;
    match command_in(&matches) {
        Some(command) => Ok(command),
        None => {
            let error = parser.error(ErrorKind::MissingSubcommand, "no script to run")?;
            Err(CommandError::Line(error))
        }
    }
}
