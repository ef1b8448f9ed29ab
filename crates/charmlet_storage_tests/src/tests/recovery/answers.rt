// What two files recover to, and the answers if one of them is cut or has a byte changed: as texts.

use charmlet_model::Half;
use charmlet_reference::{Recovered, recover};
use std::alloc::{AllocError, AllocGlobal, Global};
use std::process::Abort;

// What the files recover to.
fn answer(alloc: Global, zero: &[u8], one: &[u8]) -> Result<String, AllocError> {
    match recover(alloc, zero, one)? {
        Recovered::Nothing => format!(in alloc; "nothing"),
        Recovered::Damaged { half, offset } => format!(in alloc; "damaged {half} {offset}"),
        Recovered::Found {
            events,
            generation,
            ..
        } => format!(in alloc; "events {events} generation {generation}"),
    }
}

// The files recover to this.
pub fn assert_answer(rt: &(impl AllocGlobal + Abort), zero: &[u8], one: &[u8], wanted: &str) {
    let text = answer(rt.alloc(), zero, one).expect(rt, "memory");
    assert_eq!(rt; text.as_str(), wanted);
}

// The bytes with another byte at this place.
pub fn changed(alloc: Global, bytes: &[u8], at: usize, byte: u8) -> Result<Vec<u8>, AllocError> {
    let mut copy = bytes.to_vec(alloc)?;
    if let Some(place) = copy.get_mut(at) {
        *place = byte;
    }
    Ok(copy)
}

// Two files, one of which is cut or has a byte changed.
#[derive(Clone, Copy)]
pub struct Files<'a> {
    pub zero: &'a [u8],
    pub one: &'a [u8],
    pub altered: Half,
}

// What the files recover to with these bytes in place of the altered half's.
fn altered_answer(alloc: Global, files: Files<'_>, bytes: &[u8]) -> Result<String, AllocError> {
    match files.altered {
        Half::Zero => answer(alloc, bytes, files.one),
        Half::One => answer(alloc, files.zero, bytes),
    }
}

// The half that is altered.
fn bytes_of(files: Files<'_>) -> &[u8] {
    match files.altered {
        Half::Zero => files.zero,
        Half::One => files.one,
    }
}

// Adds a line of a table of changes again, with the actual answer if the half has this byte at this
// place.
fn add_change(
    alloc: Global,
    files: Files<'_>,
    line: &str,
    text: &mut String,
) -> Result<(), AllocError> {
    let (at, rest) = line.split_once(' ').unwrap_or((line, ""));
    let (byte, _) = rest.split_once(' ').unwrap_or((rest, ""));
    let at = at.parse::<usize>().unwrap_or(usize::MAX);
    let byte = byte.parse::<u8>().unwrap_or(0);
    let copy = changed(alloc, bytes_of(files), at, byte)?;
    let answer = altered_answer(alloc, files, copy.as_slice())?;
    write!(text, "{at} {byte} {answer}\n")
}

// Adds all lines of a table of changes again, with the actual answers.
fn add_changes(
    alloc: Global,
    files: Files<'_>,
    table: &str,
    text: &mut String,
) -> Result<(), AllocError> {
    for line in table.lines() {
        add_change(alloc, files, line, text)?;
    }
    Ok(())
}

// The table again, with the actual answers.
fn changes_of(alloc: Global, files: Files<'_>, table: &str) -> Result<String, AllocError> {
    let mut text = String::new(alloc);
    add_changes(alloc, files, table, &mut text)?;
    Ok(text)
}

// Each line of the table has a place in the altered half, a byte, and the answer if that byte is
// there.
pub fn assert_changes(rt: &(impl AllocGlobal + Abort), files: Files<'_>, table: &str) {
    let text = changes_of(rt.alloc(), files, table).expect(rt, "memory");
    assert_eq!(rt; text.as_str(), table);
}

// Adds a line for a cut to this many bytes, if the answer isn't the one before.
fn add_cut(
    alloc: Global,
    files: Files<'_>,
    cut: &[u8],
    last: &mut String,
    text: &mut String,
) -> Result<(), AllocError> {
    let answer = altered_answer(alloc, files, cut)?;
    if answer.as_str() != last.as_str() {
        let length = cut.len();
        write!(text, "{length} {answer}\n")?;
        *last = answer;
    }
    Ok(())
}

// The answers to all cuts of the altered half: a line for the first cut with each answer.
fn cuts_of(alloc: Global, files: Files<'_>) -> Result<String, AllocError> {
    let bytes = bytes_of(files);
    let mut last = String::new(alloc);
    let mut text = String::new(alloc);
    for cut in 0..=bytes.len() {
        add_cut(alloc, files, &bytes[..cut], &mut last, &mut text)?;
    }
    Ok(text)
}

// Each line of the table has a length, and the answer if the half is cut to that length or more, up
// to the next line's.
pub fn assert_cuts(rt: &(impl AllocGlobal + Abort), files: Files<'_>, table: &str) {
    let text = cuts_of(rt.alloc(), files).expect(rt, "memory");
    assert_eq!(rt; text.as_str(), table);
}
