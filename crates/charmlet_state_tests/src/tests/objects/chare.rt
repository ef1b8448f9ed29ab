ghost use Rattle.std.specs.Prelude.{◌≡◌, ◌≤◌, length};
ghost use Rattle.charmlet_chare.specs.Output.{empty_output};

use super::are_words;
use charmlet_chare::{Outbox, Output};
use charmlet_model::{Elem, MAX_SENDS, MAX_WORDS, Outgoing};
use std::alloc::AllocError;
use std::process::Abort;

// The element that gets the messages.
const TO: Elem = Elem { array: 1, index: 2 };

// There are `wanted` of them.
fn is_count(rt: &impl Abort, found: usize, wanted: usize) {
    assert_eq!(rt; found, wanted);
}

// Nothing was put into the outbox.
fn is_blank(rt: &impl Abort, out: &Outbox) {
    assert!(rt; out.sends().is_empty());
    assert!(rt; out.reply_words().is_empty());
    assert!(rt; !out.is_destroyed());
}

// Puts a message into the outbox, two replies, and that the object is destroyed.
fn fill(out: &mut Outbox) -> Result<(), AllocError>
    requires { out.old ≡ empty_output }
{
    out.send(TO, 3, &[4, 5])?;
    out.reply(&[6])?;
    out.reply(&[7, 8])?;
    out.destroy();
    Ok(())
}

// The outbox keeps that, and the later reply.
fn is_filled(rt: &impl Abort, out: &Outbox) {
    is_count(rt, out.sends().len(), 1);
    are_words(rt, out.reply_words(), &[7, 8]);
    assert!(rt; out.is_destroyed());
}

// The message is the one that was put into the outbox.
fn is_message(rt: &impl Abort, message: &Outgoing) {
    assert_eq!(rt; message.to, TO);
    assert_eq!(rt; message.entry, 3);
    are_words(rt, message.words.as_slice(), &[4, 5]);
}

// The output has what the outbox kept.
fn is_output(rt: &impl Abort, output: &Output) {
    for message in output.sends.as_slice() {
        is_message(rt, message);
    }
    are_words(rt, output.reply.as_slice(), &[7, 8]);
    assert!(rt; output.is_destroyed);
}

#[test]
fn outbox_keeps_what_is_put_into_it(rt: HostRuntime) {
    let mut out = Outbox::new(rt.alloc());
    is_blank(&rt, &out);
    fill(&mut out).expect(&rt, "memory");
    is_filled(&rt, &out);
    is_output(&rt, &out.into_output());
}

// Puts the words into the outbox as a reply, and in as many messages as it takes.
fn fill_up(out: &mut Outbox, words: &[u64]) -> Result<(), AllocError>
    requires { length words.now ≤ MAX_WORDS }
{
    out.reply(words)?;
    for index in 0..20 {
        if out.sends().len() < MAX_SENDS {
            out.send(Elem { array: 1, index }, 3, words)?;
        }
    }
    Ok(())
}

// The output is as large as possible.
fn is_full(rt: &impl Abort, output: &Output) {
    is_count(rt, output.reply.len(), 512);
    is_count(rt, output.sends.as_slice().len(), 16);
    for message in output.sends.as_slice() {
        is_count(rt, message.words.len(), 512);
    }
}

#[test]
fn outbox_takes_16_messages_of_512_words_and_such_a_reply(rt: HostRuntime) {
    let words = vec![in rt.alloc(); 7u64; MAX_WORDS].expect(&rt, "memory");
    let mut out = Outbox::new(rt.alloc());
    fill_up(&mut out, &words).expect(&rt, "memory");
    is_full(&rt, &out.into_output());
}
