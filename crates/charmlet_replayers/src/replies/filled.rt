//! Rows that are filled with replies.

ghost use Rattle.std.specs.Prelude.{◌≡◌, OnOk};
ghost use Rattle.charmlet_replayers.specs.Replies.Filled.{filled, put_reply, with_words};

use crate::replies::reply::Reply;
use charmlet_model::{ClientRow, Words};
use std::alloc::{AllocError, Global};
use std::collections::BTreeMap;

/// Puts copies of replies into the rows of the clients that asked, each in place of the row's reply
/// to the same request. A reply whose request isn't in the window any more is left out. It fails
/// only when out of memory.
pub fn fill(
    alloc: Global,
    rows: &mut BTreeMap<u32, ClientRow>,
    replies: &[Reply],
) -> Result<(), AllocError>
    ensures { OnOk result (rows.new.entries ≡ filled rows.old.entries replies.now) }
{
    for reply in replies {
        put(alloc, rows, reply)?;
    }
    Ok(())
}

/// Puts a copy of a reply into the row of the client that asked, if there is one. It fails only
/// when out of memory.
fn put(alloc: Global, rows: &mut BTreeMap<u32, ClientRow>, reply: &Reply) -> Result<(), AllocError>
    ensures { OnOk result (rows.new.entries ≡ put_reply rows.old.entries reply.now) }
{
    if let Some(row) = rows.get_mut(&reply.client) {
        put_over(alloc, row, reply.number, reply.words.as_slice())?;
    }
    Ok(())
}

/// Puts a copy of these words in place of the row's reply to the request, if the request is in the
/// window. It fails only when out of memory.
fn put_over(
    alloc: Global,
    row: &mut ClientRow,
    number: u64,
    words: &[u64],
) -> Result<(), AllocError>
    ensures { OnOk result (row.new ≡ with_words row.old number words.now) }
{
    if row.in_window(number) {
        row.answer(number, Words::from_slice(alloc, words)?);
    }
    Ok(())
}
