//! The command line, and the request that it makes.

ghost use Rattle.std.specs.Prelude.{◌≡◌, map};
ghost use Rattle.charmlet_dump.specs.Arguments.{arguments_of, asked_in, asked_next, asked_or_bad, awaiting, finished, next_number, number_of, request_or_bad, with_folder, with_json, with_number};

use crate::output::Form;
use std::convert::AsStr;
use std::fmt;

/// The help text of the command line.
pub const HELP: &str = "\
charmlet_dump DIR [--pes N] [--json]

Dump the store in the files half0 and half1 of the folder DIR, and change nothing. No program
may use the store meanwhile.

  --pes N  show each element at its home on N processors, 1 to 64; without it 1
  --json   write a JSON object in each line

Lines, in this order, each sort rising and messages by seq_no:
  store generation G events E     the image is of generation G, and E events came back
  array A kind K version V NAME   there is an array A of objects of kind K, in version V
  element A.I pe P sent S received R NAME FIELD VALUE..
                                  element I of array A is on processor P, and has sent S
                                  messages and received R; its fields by name
  element A.I none sent S received R
                                  it isn't there, but has sent and received so many
  pending ID to A.I entry E words W..
                                  message ID waits for entry E of element I of array A
  constructions N kind K NAME     N of these construct elements of kind K that aren't there
  client C last N                 client C's last request is number N
  request C N accepted            its request N has no reply yet
  request C N replied W..         the reply to its request N has these words

Where nothing can be dumped there is one line: 'refused 15 NothingHere' where the folder has no
store, 'refused 14 Damaged H O' where what stands at offset O of the file halfH isn't as the
format says or can't have happened, 'refused 17 BadPes' where N isn't 1 to 64,
'refused 2 Device' where the folder isn't there, is in use or can't be read, or
'refused 1 Memory'.

Exit status:
  0  the store was dumped
  1  the store could not be dumped, or memory or the output failed
  2  a bad command line, or a call for help";

/// The request that a command line makes: a dump of the store in this folder, with each element at
/// its home on this number of processors.
#[derive(Clone, Copy)]
pub struct Request<'a> {
    pub folder: &'a str,
    pub processors: u16,
    pub form: Form,
}

/// Why a command line asks for no dump.
#[derive(Clone, Copy)]
pub enum BadLine<'a> {
    /// It asks for help.
    Help,
    /// It names no folder.
    NoFolder,
    /// It names another folder after the first one.
    TwoFolders(&'a str),
    /// It ends before the number of processors.
    NoNumber,
    /// This isn't a 16-bit decimal number.
    BadNumber(&'a str),
    /// There is no such option.
    UnknownOption(&'a str),
    /// The option is repeated.
    Repeated(&'a str),
}

/// The request of the words so far.
#[derive(Clone, Copy)]
struct Asked<'a> {
    folder: Option<&'a str>,
    processors: Option<u16>,
    form: Option<Form>,
    /// The next word is the number of processors.
    awaits_number: bool,
}

/// The request that the words make: `DIR [--pes N] [--json]`, in any order, after the program's
/// name. `--pes=N` is the same as `--pes N`. Without `--pes` there is one processor. An error names
/// the first word that doesn't belong there.
pub fn arguments_of<'a, S: AsStr>(words: &'a [S]) -> Result<Request<'a>, BadLine<'a>>
    ensures { request_or_bad result ≡ arguments_of (map S.text words.entry.now) }
{
    let mut asked = Asked {
        folder: None,
        processors: None,
        form: None,
        awaits_number: false,
    };
    for place in 1..words.len() {
        asked = read_word(asked, words[place].as_str())?;
    }
    finish(asked)
}

/// The request of the words up to this one.
fn read_word<'a>(asked: Asked<'a>, word: &'a str) -> Result<Asked<'a>, BadLine<'a>>
    ensures { asked_or_bad result ≡ asked_next (asked_in asked.entry) word.entry.now }
{
    if asked.awaits_number {
        return read_number(asked, word, word.as_bytes());
    }
    if word == "--help" || word == "-h" {
        return Err(BadLine::Help);
    }
    if word == "--json" {
        return read_json(asked, word);
    }
    if word == "--pes" {
        return await_number(asked, word);
    }
    if let Some(digits) = word.as_bytes().strip_prefix(b"--pes=") {
        return read_number(await_number(asked, word)?, word, digits);
    }
    if word.as_bytes().starts_with(b"-") {
        return Err(BadLine::UnknownOption(word));
    }
    read_folder(asked, word)
}

/// Reads a folder, if there was none before.
fn read_folder<'a>(asked: Asked<'a>, word: &'a str) -> Result<Asked<'a>, BadLine<'a>>
    ensures { asked_or_bad result ≡ with_folder (asked_in asked.entry) word.entry.now }
{
    match asked.folder {
        Some(_) => Err(BadLine::TwoFolders(word)),
        None => Ok(Asked {
            folder: Some(word),
            ..asked
        }),
    }
}

/// Notes the JSON form, if it wasn't asked for before.
fn read_json<'a>(asked: Asked<'a>, word: &'a str) -> Result<Asked<'a>, BadLine<'a>>
    ensures { asked_or_bad result ≡ with_json (asked_in asked.entry) word.entry.now }
{
    match asked.form {
        Some(_) => Err(BadLine::Repeated(word)),
        None => Ok(Asked {
            form: Some(Form::Json),
            ..asked
        }),
    }
}

/// Awaits the number of processors, if there was none before.
fn await_number<'a>(asked: Asked<'a>, word: &'a str) -> Result<Asked<'a>, BadLine<'a>>
    ensures { asked_or_bad result ≡ awaiting (asked_in asked.entry) word.entry.now }
{
    match asked.processors {
        Some(_) => Err(BadLine::Repeated(word)),
        None => Ok(Asked {
            awaits_number: true,
            ..asked
        }),
    }
}

/// Reads these digits as the number of processors.
fn read_number<'a>(asked: Asked<'a>, word: &'a str, digits: &[u8]) -> Result<Asked<'a>, BadLine<'a>>
    ensures { asked_or_bad result
        ≡ with_number (asked_in asked.entry) word.entry.now (number_of digits.now) }
{
    match number_of(digits) {
        Some(number) => Ok(Asked {
            processors: Some(number),
            awaits_number: false,
            ..asked
        }),
        None => Err(BadLine::BadNumber(word)),
    }
}

/// A decimal 16-bit number.
fn number_of(digits: &[u8]) -> Option<u16>
    ensures { result ≡ number_of digits.now }
{
    if digits.is_empty() {
        return None;
    }
    let mut number: u16 = 0;
    for digit in digits {
        number = next_number(number, *digit)?;
    }
    Some(number)
}

/// The number with one more digit, if it fits in 16 bits.
fn next_number(number: u16, digit: u8) -> Option<u16>
    ensures { result ≡ next_number number digit }
{
    if !digit.is_ascii_digit() {
        return None;
    }
    number.checked_mul(10)?.checked_add(u16::from(digit - b'0'))
}

/// The request of all words.
fn finish<'a>(asked: Asked<'a>) -> Result<Request<'a>, BadLine<'a>>
    ensures { request_or_bad result ≡ finished (asked_in asked.entry) }
{
    if asked.awaits_number {
        return Err(BadLine::NoNumber);
    }
    let Some(folder) = asked.folder else {
        return Err(BadLine::NoFolder);
    };
    Ok(Request {
        folder,
        processors: asked.processors.unwrap_or(1),
        form: asked.form.unwrap_or(Form::Plain),
    })
}

/// Writes the text about the command line for standard error, without a line feed.
impl<'a> fmt::Display for BadLine<'a> {
    ghost use Rattle.std.specs.Prelude.{Some};
    ghost use Rattle.charmlet_dump.specs.Arguments.{bad_in};
    ghost use Rattle.charmlet_dump.specs.Usage.{bad_text};

    ghost output = { λ bad. Some (bad_text (bad_in bad)) };

    fn fmt<W: fmt::Write>(&self, f: &mut fmt::Formatter<W>) -> fmt::Result {
        match self {
            BadLine::Help => write!(f, "{HELP}"),
            BadLine::NoFolder => write!(f, "no folder is named; try --help"),
            BadLine::TwoFolders(word) => write!(f, "a second folder: {word}; try --help"),
            BadLine::NoNumber => write!(f, "--pes without a number; try --help"),
            BadLine::BadNumber(word) => write!(f, "not a number of processors: {word}; try --help"),
            BadLine::UnknownOption(word) => write!(f, "unknown option: {word}; try --help"),
            BadLine::Repeated(word) => write!(f, "option given twice: {word}; try --help"),
        }
    }
}
