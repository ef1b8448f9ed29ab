//! Readers of one line.

ghost use Rattle.std.specs.Prelude.{◌≡◌, map, nat_lt};
ghost use Rattle.std.specs.List.{list_all};
ghost use Rattle.charmlet_script.specs.Line.{array_of, call_of, census_of, checkpoint_of, deliver_of, drain_of, flush_of, handler_of, is_skipped, item_of, line_of, move_of, pending_of, pes_of, request_of, spelled_by, state_of, status_of, step_of, supply_of};
ghost use Rattle.charmlet_script.specs.Reading.{Spells};

use crate::error::LineFault;
use crate::id::id_of;
use crate::name::name_of;
use crate::number::{
    MAX_BLANKS, MAX_DELIVERIES, count_up_to, kind_of, numbers, u16_of, u32_of, u64_of,
};
use crate::script::{ArrayLine, HandlerLine, Line};
use crate::split::words;
use charmlet_model::{Elem, Step};
use std::alloc::Global;

/// The meaning of one line of the text.
#[derive(Debug, Drop)]
pub(crate) enum Item {
    /// An empty line or a comment.
    Skipped,
    /// A number of processors.
    Processors(u16),
    Array(ArrayLine),
    Handler(HandlerLine),
    Line(Line),
}

/// Reads the words after `array`: `A K`.
#[tactic(auto, unfolding(crate::specs::Line::array_of))]
fn array_of(words: &[&[u8]]) -> Option<ArrayLine>
    ensures { result ≡ array_of (map (λ word. word.now) words.now) }
{
    let [array, kind] = words else {
        return None;
    };
    let array = u16_of(array)?;
    let kind = kind_of(kind)?;
    Some(ArrayLine { array, kind })
}

/// Reads the word after `pes`: `N`.
#[tactic(auto, unfolding(crate::specs::Line::pes_of))]
fn pes_of(words: &[&[u8]]) -> Option<u16>
    ensures { result ≡ pes_of (map (λ word. word.now) words.now) }
{
    let [processors] = words else {
        return None;
    };
    u16_of(processors)
}

/// Reads the words after `handler`: `NAME A E`.
#[tactic(auto, unfolding(crate::specs::Line::handler_of))]
fn handler_of(alloc: Global, words: &[&[u8]]) -> Result<HandlerLine, LineFault>
    ensures { Spells result (handler_of (map (λ word. word.now) words.now)) }
{
    let [name, array, entry] = words else {
        return Err(LineFault::Malformed);
    };
    let name = name_of(alloc, name)?;
    let array = u16_of(array).ok_or(LineFault::Malformed)?;
    let entry = u16_of(entry).ok_or(LineFault::Malformed)?;
    Ok(HandlerLine { name, array, entry })
}

/// Reads the words after `supply`: `K N`.
#[tactic(auto, unfolding(crate::specs::Line::supply_of))]
fn supply_of(words: &[&[u8]]) -> Option<Line>
    ensures { result ≡ supply_of (map (λ word. word.now) words.now) }
{
    let [kind, count] = words else {
        return None;
    };
    let kind = kind_of(kind)?;
    let count = count_up_to(MAX_BLANKS, count)?;
    Some(Line::Supply { kind, count })
}

/// Reads the word after `drain`: `N`.
#[tactic(auto, unfolding(crate::specs::Line::drain_of))]
fn drain_of(words: &[&[u8]]) -> Option<Line>
    ensures { result ≡ drain_of (map (λ word. word.now) words.now) }
{
    let [count] = words else {
        return None;
    };
    let count = count_up_to(MAX_DELIVERIES, count)?;
    Some(Line::Drain { count })
}

/// Reads the words after `state`: `A I`.
#[tactic(auto, unfolding(crate::specs::Line::state_of))]
fn state_of(words: &[&[u8]]) -> Option<Line>
    ensures { result ≡ state_of (map (λ word. word.now) words.now) }
{
    let [array, index] = words else {
        return None;
    };
    let array = u16_of(array)?;
    let index = u64_of(index)?;
    Some(Line::State(Elem { array, index }))
}

/// Reads the words after `pending`: none.
#[tactic(auto, unfolding(crate::specs::Line::pending_of))]
fn pending_of(words: &[&[u8]]) -> Option<Line>
    ensures { result ≡ pending_of (map (λ word. word.now) words.now) }
{
    if words.is_empty() {
        Some(Line::Pending)
    } else {
        None
    }
}

/// Reads the words after `census`: none.
#[tactic(auto, unfolding(crate::specs::Line::census_of))]
fn census_of(words: &[&[u8]]) -> Option<Line>
    ensures { result ≡ census_of (map (λ word. word.now) words.now) }
{
    if words.is_empty() {
        Some(Line::Census)
    } else {
        None
    }
}

/// Reads the words after `call`: `C N NAME I W..`.
#[tactic(auto, unfolding(crate::specs::Line::call_of))]
fn call_of(alloc: Global, words: &[&[u8]]) -> Result<Line, LineFault>
    ensures { Spells result (call_of (map (λ word. word.now) words.now)) }
{
    let [client, number, name, index, payload @ ..] = words else {
        return Err(LineFault::Malformed);
    };
    let client = u32_of(client).ok_or(LineFault::Malformed)?;
    let number = u64_of(number).ok_or(LineFault::Malformed)?;
    let name = name_of(alloc, name)?;
    let index = u64_of(index).ok_or(LineFault::Malformed)?;
    let words = numbers(alloc, payload)?;
    Ok(Line::Call {
        client,
        number,
        name,
        index,
        words,
    })
}

/// Reads the words after `req`: `C N A I E W..`.
#[tactic(auto, unfolding(crate::specs::Line::request_of))]
fn request_of(alloc: Global, words: &[&[u8]]) -> Result<Step, LineFault>
    ensures { Spells result (request_of (map (λ word. word.now) words.now)) }
{
    let [client, number, array, index, entry, payload @ ..] = words else {
        return Err(LineFault::Malformed);
    };
    let client = u32_of(client).ok_or(LineFault::Malformed)?;
    let number = u64_of(number).ok_or(LineFault::Malformed)?;
    let array = u16_of(array).ok_or(LineFault::Malformed)?;
    let index = u64_of(index).ok_or(LineFault::Malformed)?;
    let entry = u16_of(entry).ok_or(LineFault::Malformed)?;
    let words = numbers(alloc, payload)?;
    let to = Elem { array, index };
    Ok(Step::Request {
        client,
        number,
        to,
        entry,
        words,
    })
}

/// Reads the words after `status`: `C N`.
#[tactic(auto, unfolding(crate::specs::Line::status_of))]
fn status_of(words: &[&[u8]]) -> Option<Step>
    ensures { result ≡ status_of (map (λ word. word.now) words.now) }
{
    let [client, number] = words else {
        return None;
    };
    let client = u32_of(client)?;
    let number = u64_of(number)?;
    Some(Step::Status { client, number })
}

/// Reads the words after `deliver`: `PE ID`.
#[tactic(auto, unfolding(crate::specs::Line::deliver_of))]
fn deliver_of(alloc: Global, words: &[&[u8]]) -> Result<Step, LineFault>
    ensures { Spells result (deliver_of (map (λ word. word.now) words.now)) }
{
    let [processor, id] = words else {
        return Err(LineFault::Malformed);
    };
    let processor = u16_of(processor).ok_or(LineFault::Malformed)?;
    let id = id_of(alloc, id)?;
    Ok(Step::Deliver { processor, id })
}

/// Reads the words after `move`: `A I PE`.
#[tactic(auto, unfolding(crate::specs::Line::move_of))]
fn move_of(words: &[&[u8]]) -> Option<Step>
    ensures { result ≡ move_of (map (λ word. word.now) words.now) }
{
    let [array, index, processor] = words else {
        return None;
    };
    let array = u16_of(array)?;
    let index = u64_of(index)?;
    let processor = u16_of(processor)?;
    let elem = Elem { array, index };
    Some(Step::Move { elem, processor })
}

/// Reads the words after `flush`: none.
#[tactic(auto, unfolding(crate::specs::Line::flush_of))]
fn flush_of(words: &[&[u8]]) -> Option<Step>
    ensures { result ≡ flush_of (map (λ word. word.now) words.now) }
{
    if words.is_empty() {
        Some(Step::Flush)
    } else {
        None
    }
}

/// Reads the words after `checkpoint`: none.
#[tactic(auto, unfolding(crate::specs::Line::checkpoint_of))]
fn checkpoint_of(words: &[&[u8]]) -> Option<Step>
    ensures { result ≡ checkpoint_of (map (λ word. word.now) words.now) }
{
    if words.is_empty() {
        Some(Step::Checkpoint)
    } else {
        None
    }
}

/// The step that a first word and the words after it spell.
#[tactic(auto, unfolding(crate::specs::Line::step_of))]
fn step_of(alloc: Global, name: &[u8], words: &[&[u8]]) -> Result<Step, LineFault>
    ensures { Spells result (step_of name.now (map (λ word. word.now) words.now)) }
{
    if name == b"req".as_slice() {
        request_of(alloc, words)
    } else if name == b"status".as_slice() {
        status_of(words).ok_or(LineFault::Malformed)
    } else if name == b"deliver".as_slice() {
        deliver_of(alloc, words)
    } else if name == b"move".as_slice() {
        move_of(words).ok_or(LineFault::Malformed)
    } else if name == b"flush".as_slice() {
        flush_of(words).ok_or(LineFault::Malformed)
    } else if name == b"checkpoint".as_slice() {
        checkpoint_of(words).ok_or(LineFault::Malformed)
    } else {
        Err(LineFault::Malformed)
    }
}

/// The line after the header that a first word and the words after it spell.
#[tactic(auto, unfolding(crate::specs::Line::line_of))]
fn line_of(alloc: Global, name: &[u8], words: &[&[u8]]) -> Result<Line, LineFault>
    ensures { Spells result (line_of name.now (map (λ word. word.now) words.now)) }
{
    if name == b"supply".as_slice() {
        supply_of(words).ok_or(LineFault::Malformed)
    } else if name == b"drain".as_slice() {
        drain_of(words).ok_or(LineFault::Malformed)
    } else if name == b"state".as_slice() {
        state_of(words).ok_or(LineFault::Malformed)
    } else if name == b"pending".as_slice() {
        pending_of(words).ok_or(LineFault::Malformed)
    } else if name == b"census".as_slice() {
        census_of(words).ok_or(LineFault::Malformed)
    } else if name == b"call".as_slice() {
        call_of(alloc, words)
    } else {
        let step = step_of(alloc, name, words)?;
        Ok(Line::Step(step))
    }
}

/// The item that words spell.
#[tactic(auto, unfolding(crate::specs::Line::spelled_by))]
fn spelled_by(alloc: Global, words: &[&[u8]]) -> Result<Item, LineFault>
    ensures { Spells result (spelled_by (map (λ word. word.now) words.now)) }
{
    let [name, words @ ..] = words else {
        return Err(LineFault::Malformed);
    };
    if *name == b"array".as_slice() {
        let line = array_of(words).ok_or(LineFault::Malformed)?;
        Ok(Item::Array(line))
    } else if *name == b"pes".as_slice() {
        let processors = pes_of(words).ok_or(LineFault::Malformed)?;
        Ok(Item::Processors(processors))
    } else if *name == b"handler".as_slice() {
        let line = handler_of(alloc, words)?;
        Ok(Item::Handler(line))
    } else {
        let line = line_of(alloc, name, words)?;
        Ok(Item::Line(line))
    }
}

/// Whether each byte is ASCII.
fn is_ascii(line: &[u8]) -> bool
    ensures { result ≡ list_all (λ b. nat_lt b 128) line.now }
{
    line.iter().all(|b| *b < 128)
}

/// Whether the line is empty or a comment.
fn is_skipped(line: &[u8]) -> bool
    ensures { result ≡ is_skipped line.now }
{
    match line {
        [] => true,
        [first, ..] => *first == b'#',
    }
}

/// The item that a line spells, wherever it stands.
#[tactic(auto, unfolding(crate::specs::Line::item_of))]
pub(crate) fn item_of(alloc: Global, line: &[u8]) -> Result<Item, LineFault>
    ensures { Spells result (item_of line.now) }
{
    if !is_ascii(line) {
        return Err(LineFault::Malformed);
    }
    if is_skipped(line) {
        return Ok(Item::Skipped);
    }
    let words = words(alloc, line)?;
    spelled_by(alloc, &words)
}
