//! A client's knowledge about its requests, as a row of its own.

ghost use Rattle.std.specs.Prelude.{◌≡◌, ◌-◌, drop, true, OnErr, OnOk};
ghost use Rattle.charmlet_model.specs.Core.{has_words};
ghost use Rattle.charmlet_model.specs.Row.{awaits};
ghost use Rattle.charmlet_model.specs.declared.told.Told.TheVariants.{Replied};
ghost use Rattle.charmlet_requests.specs.Knowing.{IsWindowed, gone_on, heard, passed, reached};

use charmlet_model::{ClientRow, MAX_UNANSWERED, Told, Window, Words};
use std::alloc::{AllocError, Global};

/// Records in the row what was told about request `number`. It takes no memory if what was told has
/// no words, or if the row has them already. When out of memory, nothing changes.
pub(crate) fn hear(
    row: &mut ClientRow,
    alloc: Global,
    number: u64,
    told: &Told,
) -> Result<(), AllocError>
    requires windowed { IsWindowed row.old }
    ensures ok { OnOk result (row.new ≡ heard row.old number told.now) }
    ensures windowed { IsWindowed row.new }
    ensures err { OnErr result (row.new ≡ row.old) }
    ensures words { OnErr result (has_words told.now ≡ true) }
{
    match told {
        Told::Unknown => Ok(()),
        Told::Accepted => {
            reach(row, number);
            Ok(())
        }
        Told::Replied(reply) => hear_reply(row, alloc, number, reply),
        Told::Past => {
            pass(row, number);
            Ok(())
        }
    }
}

/// Records the reply to request `number` in the row. It fails only when out of memory, and then
/// nothing changes.
fn hear_reply(
    row: &mut ClientRow,
    alloc: Global,
    number: u64,
    reply: &Words,
) -> Result<(), AllocError>
    requires windowed { IsWindowed row.old }
    ensures ok { OnOk result (row.new ≡ heard row.old number (Replied reply.now)) }
    ensures windowed { IsWindowed row.new }
    ensures err { OnErr result (row.new ≡ row.old) }
    ensures words { OnErr result (has_words (Replied reply.now) ≡ true) }
{
    if row.reply(number).is_some() {
        return Ok(());
    }
    let reply = Words::from_slice(alloc, reply.as_slice())?;
    reach(row, number);
    if awaits(row, number) {
        row.answer(number, reply);
    }
    Ok(())
}

/// Whether `number` is in the row's window, without a reply.
fn awaits(row: &ClientRow, number: u64) -> bool
    ensures { result ≡ awaits row.now number }
{
    row.in_window(number) && row.reply(number).is_none()
}

/// Records that all requests up to `number` were accepted. It takes no memory.
fn reach(row: &mut ClientRow, number: u64)
    requires windowed { IsWindowed row.old }
    ensures reached { row.new ≡ reached row.old number }
    ensures windowed { IsWindowed row.new }
{
    pass(row, number.saturating_sub(MAX_UNANSWERED as u64));
    go_on(row, number);
}

/// Accepts requests one after another, up to `number`. It takes no memory.
fn go_on(row: &mut ClientRow, number: u64)
    requires windowed { IsWindowed row.old }
    ensures gone_on { row.new ≡ gone_on row.old (number - row.old.last) }
    ensures windowed { IsWindowed row.new }
{
    for last in row.last..number {
        row.accept(last + 1);
    }
}

/// Records that all requests up to `number` are past. It takes no memory.
fn pass(row: &mut ClientRow, number: u64)
    requires windowed { IsWindowed row.old }
    ensures passed { row.new ≡ passed row.old number }
    ensures windowed { IsWindowed row.new }
{
    let gone = number.saturating_sub(row.below());
    drop_first(&mut row.window, gone);
    if row.last < number {
        row.last = number;
    }
}

/// Removes the `count` oldest items, or all if there are fewer. It takes no memory.
fn drop_first(window: &mut Window, count: u64)
    ensures { window.new ≡ drop count window.old }
{
    for _ in 0..count.min(window.len() as u64) {
        window.remove_first();
    }
}
