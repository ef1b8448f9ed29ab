//! The effect of each line of a probe.

use crate::words::{bytes, choice, half, kind, number};
use charmlet_model::Answer;
use charmlet_testing::{
    Bench, Failed, Machine, Running, Turn, Without, checkpoint, give, held, image, lend, lend_seat,
    look, next, pass, say, turn,
};
use std::alloc::Global;
use std::io::Write;
use std::sync::Wait;
use std::sync::atomic::Ordering;
use std::thread::Threads;

/// The output of a line that shows something and is refused memory.
const REFUSED: &[u8] = b"refused 1 Memory\n";

/// Runs a line, and prints its answer. If memory is refused, and that is asked for, it runs the
/// line once more.
pub(crate) fn run_line<M: Machine, R: Threads + Wait + Sync>(
    rt: &R,
    alloc: Global,
    bench: &mut Bench,
    store: &mut Option<M>,
    text: &str,
    out: &mut Vec<u8>,
) -> Result<(), Failed> {
    let mut result = act(rt, alloc, bench, store, text, out);
    let is_refused = match &result {
        Ok(()) => out.as_slice() == REFUSED,
        Err(failed) => failed.is_memory(),
    };
    if is_refused && bench.tries_again() {
        out.clear();
        result = act(rt, alloc, bench, store, text, out);
    }
    match result {
        Ok(()) => Ok(()),
        Err(Failed::Refused(refusal)) => say(alloc, out, &Answer::Refused(refusal)),
        Err(Failed::NotRestarted(refusal, blanks)) => {
            say(alloc, out, &Answer::Refused(refusal))?;
            Ok(writeln!(out, "blanks {blanks}")?)
        }
        Err(Failed::Lacks(what)) => Ok(writeln!(out, "no {what}")?),
        Err(Failed::Malformed) => Err(Failed::Malformed),
    }
}

/// Does what a line says, by its first word.
fn act<M: Machine, R: Threads + Wait + Sync>(
    rt: &R,
    alloc: Global,
    bench: &mut Bench,
    store: &mut Option<M>,
    text: &str,
    out: &mut Vec<u8>,
) -> Result<(), Failed> {
    let words: Vec<&str> = text.split(' ').collect(alloc)?;
    let Some((name, words)) = words.split_first() else {
        return Ok(());
    };
    if ["pes", "array", "handler"].contains(name) {
        bench.declare(text)
    } else if ["create", "blanks", "restart", "again"].contains(name) {
        begin(rt, bench, name, words, out)
    } else if ["leave", "close", "crash", "disk"].contains(name) {
        end(bench, store, name, words, out)
    } else if let Some(call) = running_of(name, words)? {
        checkpoint(alloc, store, call, out)
    } else if ["look", "next", "image", "tally", "versions"].contains(name) {
        show(bench, store, name, out)
    } else if ["lend", "give", "pass", "known"].contains(name) {
        ask(bench, store, name, words, out)
    } else if ["fuse", "once", "sound", "forget"].contains(name) {
        tell(bench, name, words)
    } else if ["calls", "passed", "trace"].contains(name) {
        count(bench, name, out)
    } else if ["write", "cut", "half"].contains(name) {
        touch(alloc, bench, name, words, out)
    } else if ["manifest", "survey", "recover"].contains(name) {
        find(bench, name, out)
    } else if ["assign", "seat", "held", "tell", "close-without"].contains(name) {
        handle(alloc, bench, store, name, words, text, out)
    } else if let Some(of) = turn_of(name) {
        turn(store, of, name, number(only(words)?)?, out)
    } else {
        bench.script(rt, store, text, out)
    }
}

/// A line's call of a checkpoint that runs while others work, by its words. `None` for any other
/// line, including an image of no shelf.
fn running_of(name: &str, words: &[&str]) -> Result<Option<Running>, Failed> {
    match (name, words) {
        ("begin", []) => Ok(Some(Running::Begin)),
        ("image", [processor]) => Ok(Some(Running::Image(number(processor)?))),
        ("seal", []) => Ok(Some(Running::Seal)),
        ("abandon", []) => Ok(Some(Running::Abandon)),
        _ => Ok(None),
    }
}

/// A worker's line's call, by its name.
fn turn_of(name: &str) -> Option<Turn> {
    match name {
        "enter" => Some(Turn::Enter),
        "commit" => Some(Turn::Commit),
        "commit-own" => Some(Turn::CommitOwn),
        "finish" => Some(Turn::Finish),
        "release" => Some(Turn::Release),
        "settle" => Some(Turn::Settle),
        _ => None,
    }
}

/// Runs a line of a hub.
fn handle<M: Machine>(
    alloc: Global,
    bench: &mut Bench,
    store: &mut Option<M>,
    name: &str,
    words: &[&str],
    text: &str,
    out: &mut Vec<u8>,
) -> Result<(), Failed> {
    match name {
        "assign" => bench.assign(store, delivering(alloc, text)?.as_str(), out),
        "seat" => lend_seat(store, number(only(words)?)?, out),
        "held" => held(store, number(only(words)?)?, out),
        "tell" => bench.tell(store, out),
        _ => bench.close(store, without(words)?, out),
    }
}

/// The line that delivers what a line assigns.
fn delivering(alloc: Global, text: &str) -> Result<String, Failed> {
    let Some(words) = text.strip_prefix("assign") else {
        return Err(Failed::Malformed);
    };
    let mut line = String::new(alloc);
    line.push_str("deliver")?;
    line.push_str(words)?;
    Ok(line)
}

/// The seat or pass that isn't handed in, by two words.
fn without(words: &[&str]) -> Result<Without, Failed> {
    match words {
        ["seat", processor] => Ok(Without::Seat(number(processor)?)),
        ["pass", client] => Ok(Without::Pass(number(client)?)),
        _ => Err(Failed::Malformed),
    }
}

/// The one word of these.
fn only<'a>(words: &[&'a str]) -> Result<&'a str, Failed> {
    match words {
        [word] => Ok(*word),
        _ => Err(Failed::Malformed),
    }
}

/// Runs a line that begins a store.
fn begin<R: Threads + Sync>(
    rt: &R,
    bench: &mut Bench,
    name: &str,
    words: &[&str],
    out: &mut Vec<u8>,
) -> Result<(), Failed> {
    match name {
        "create" => bench.create(out),
        "restart" => bench.restart(rt, number(only(words)?)?, out),
        "again" => Ok(bench.try_again()),
        _ => {
            let [of, count] = words else {
                return Err(Failed::Malformed);
            };
            bench.lay_by(kind(of)?, number(count)?)
        }
    }
}

/// Runs a line that ends a store.
fn end<M: Machine>(
    bench: &mut Bench,
    store: &mut Option<M>,
    name: &str,
    words: &[&str],
    out: &mut Vec<u8>,
) -> Result<(), Failed> {
    match name {
        "leave" => Ok(bench.leave(store)),
        "close" => bench.close(store, Without::Nothing, out),
        "disk" => bench.renew(store),
        _ => Ok(bench.crash(store, choice(only(words)?)?)),
    }
}

/// Runs a line that shows something of a store.
fn show<M: Machine>(
    bench: &mut Bench,
    store: &mut Option<M>,
    name: &str,
    out: &mut Vec<u8>,
) -> Result<(), Failed> {
    match name {
        "look" => look(store, out),
        "next" => next(store, out),
        "image" => image(store, out),
        "versions" => {
            let [retros, upgrades] = bench.tally().versions();
            Ok(writeln!(out, "retros {retros} upgrades {upgrades}")?)
        }
        _ => {
            let [entries, packs, unpacks, drops] = bench.tally().counts();
            write!(out, "entries {entries} packs {packs} ")?;
            Ok(writeln!(out, "unpacks {unpacks} drops {drops}")?)
        }
    }
}

/// Runs a line of a client's pass.
fn ask<M: Machine>(
    bench: &mut Bench,
    store: &mut Option<M>,
    name: &str,
    words: &[&str],
    out: &mut Vec<u8>,
) -> Result<(), Failed> {
    match name {
        "lend" => lend(store, number(only(words)?)?, out),
        "give" => give(store, number(only(words)?)?, out),
        "pass" => pass(store, number(only(words)?)?, out),
        _ => {
            let [client, request] = words else {
                return Err(Failed::Malformed);
            };
            bench.known(store, number(client)?, number(request)?, out)
        }
    }
}

/// Runs a line that makes the disk misbehave.
fn tell(bench: &Bench, name: &str, words: &[&str]) -> Result<(), Failed> {
    let switches = bench.switches();
    match name {
        "sound" => switches.mend(),
        "forget" => switches.forgets.store(true, Ordering::SeqCst),
        "fuse" => switches.fuse.store(number(only(words)?)?, Ordering::SeqCst),
        _ => switches.once.store(number(only(words)?)?, Ordering::SeqCst),
    }
    Ok(())
}

/// Runs a line that shows the calls of the disk.
fn count(bench: &mut Bench, name: &str, out: &mut Vec<u8>) -> Result<(), Failed> {
    let [lengths, reads, writes, syncs, failed] = bench.switches().counts();
    match name {
        "trace" => bench.trace(out),
        "calls" => {
            write!(out, "calls lengths {lengths} reads {reads} ")?;
            Ok(writeln!(out, "writes {writes} syncs {syncs} failed {failed}")?)
        }
        _ => {
            let passed = writes.saturating_add(syncs);
            Ok(writeln!(out, "passed {passed} failed {failed}")?)
        }
    }
}

/// Runs a line on the bytes of the disk.
fn touch(
    alloc: Global,
    bench: &mut Bench,
    name: &str,
    words: &[&str],
    out: &mut Vec<u8>,
) -> Result<(), Failed> {
    let Some((of, words)) = words.split_first() else {
        return Err(Failed::Malformed);
    };
    let half = half(of)?;
    let Some((place, digits)) = words.split_first() else {
        return match name {
            "half" => bench.half(half, 0, out),
            _ => Err(Failed::Malformed),
        };
    };
    match name {
        "write" => bench.write(half, number(place)?, &bytes(alloc, digits)?),
        "cut" => bench.cut(half, number(place)?),
        _ => bench.half(half, number(place)?, out),
    }
}

/// Runs a line that shows the findings on the disk.
fn find(bench: &mut Bench, name: &str, out: &mut Vec<u8>) -> Result<(), Failed> {
    match name {
        "manifest" => bench.manifest(out),
        "survey" => bench.survey(out),
        _ => bench.recover(out),
    }
}
