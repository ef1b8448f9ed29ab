//! The shelves of all processors, on which each element stands at its home.

ghost use Rattle.std.specs.Prelude.{◌≡◌, ◌+◌, ◌≤◌, None, Some, true, Err, IfOk, IfSome, IsOk, List, OnOk, is_some, length};
ghost use Rattle.std.specs.BTreeMap.{insert_entry, is_at};
ghost use Rattle.std.specs.List.{All};
ghost use Rattle.std.specs.Map.{lookup};
ghost use Rattle.charmlet_model.specs.declared.names.Elem as names;
ghost use Rattle.charmlet_model.specs.declared.state.Record.{Record};
ghost use Rattle.charmlet_model.specs.Core.{home, with_taken};
ghost use Rattle.charmlet_model.specs.KindVersion.{kind_of_version};
ghost use Rattle.charmlet_model.specs.Names.{elem_cmp};
ghost use Rattle.charmlet_model.specs.Packed.{reads_packed};
ghost use Rattle.charmlet_model.specs.Unpacked.{state_at};
ghost use Rattle.charmlet_model.specs.World.{record_at};
ghost use Rattle.charmlet_locate.specs.Locations.{is_processor_count};
ghost use Rattle.charmlet_migrate.specs.Moving.{IsCountedAmong, IsIdle};
ghost use Rattle.charmlet_stock.specs.Stock.{blanks_in, keeping_of, supplied_to};
ghost use Rattle.charmlet_recovery.specs.Faults.{takes};
ghost use Rattle.charmlet_shard.specs.Home.{AreHome};
ghost use Rattle.charmlet_shard.specs.Receiving.{IsKnownAs, IsOutputAt, IsReceivedAt, IsRestoredAt, blank_for, blank_of_entry};
ghost use Rattle.charmlet_shard.specs.declared.stopped.Stopped.TheVariants as stops;

use crate::receivers::{place_packed, receive};
use crate::stopped::Stopped;
use charmlet_chare::{Chare, Output};
use charmlet_image::Entry;
use charmlet_locate::home;
use charmlet_model::{Elem, KindVersion, Message};
use charmlet_shelf::Shelf;
use charmlet_stock::Stock;
use charmlet_world::Element;
use std::alloc::AllocError;

/// The home of an element on this many processors.
fn home_on(elem: Elem, processors: u16) -> u16
    requires { is_processor_count processors ≡ true }
    ensures home { result ≡ home elem processors }
    ensures within { result + 1 ≤ processors }
{
    let Ok(home) = home(elem, processors) else {
        unreachable!()
    };
    home
}

/// The index of an element's home among the shelves of this many processors.
fn place_of_home(elem: Elem, processors: u16) -> usize
    requires { is_processor_count processors ≡ true }
    ensures home { result ≡ home elem processors }
    ensures within { result + 1 ≤ processors }
{
    usize::from(home_on(elem, processors))
}

/// Places an element of this kind version, which has no entry yet, on the shelf of its home, from a
/// blank of its kind and its packed state, with its counts. It fails only when out of memory, and
/// then all shelves are unchanged.
pub(crate) fn place_at_home<C: Chare>(
    processors: u16,
    shelves: &mut [Shelf<C>],
    stock: &mut Stock<C>,
    elem: Elem,
    counts: Element,
    kind_version: KindVersion,
    packed: &[u8],
) -> Result<(), AllocError>
    requires processors { is_processor_count processors ≡ true }
    requires unknown { (records : List (names.Elem × Record))
        × AreHome processors records shelves.old
        × (lookup (is_at (elem_cmp elem)) records ≡ None) }
    requires packed { IsOk (reads_packed kind_version packed.now) }
    requires blank { 1 ≤ blanks_in stock.old (kind_of_version kind_version) }
    requires counted { IsCountedAmong shelves.old stock.old }
    ensures ok { (records : List (names.Elem × Record)) → AreHome processors records shelves.old →
        OnOk result (AreHome processors (insert_entry elem_cmp records elem (record {
          state = Some (state_at kind_version packed.now);
          sent = counts.sent;
          received = counts.received;
        })) shelves.new) }
    ensures blanks { OnOk result (blanks_in stock.new
        ≡ with_taken (Some kind_version) (blanks_in stock.old)) }
    ensures idle { All IsIdle shelves.new }
    ensures count { length shelves.new ≡ length shelves.old }
    ensures counted { IsCountedAmong shelves.new stock.new }
    ensures supplied { supplied_to stock.new ≡ supplied_to stock.old }
    ensures keeping { keeping_of stock.new ≡ keeping_of stock.old }
{
    let place = place_of_home(elem, processors);
    place_packed(
        &mut shelves[place],
        stock,
        elem,
        counts,
        kind_version,
        packed,
    )
}

/// Restores an element of an image, which has no entry yet. Its object, if it has one, is of this
/// kind version, and is made from a blank of its kind on the shelf of its home. Answers the
/// element's place and counts. It fails only when out of memory.
pub(crate) fn restore_at_home<C: Chare>(
    processors: u16,
    shelves: &mut [Shelf<C>],
    stock: &mut Stock<C>,
    kind_version: KindVersion,
    entry: &Entry<'_>,
) -> Result<Element, AllocError>
    requires processors { is_processor_count processors ≡ true }
    requires unknown { (records : List (names.Elem × Record))
        × AreHome processors records shelves.old
        × (lookup (is_at (elem_cmp entry.now.element)) records ≡ None) }
    requires packed { IfSome entry.now.packed
        (λ packed. IsOk (reads_packed kind_version packed.now)) }
    requires blank { is_some entry.now.packed ≡ true →
        1 ≤ blanks_in stock.old (kind_of_version kind_version) }
    requires idle { All IsIdle shelves.old }
    requires counted { IsCountedAmong shelves.old stock.old }
    ensures ok { (records : List (names.Elem × Record)) → AreHome processors records shelves.old →
        lookup (is_at (elem_cmp entry.now.element)) records ≡ None →
        IfOk result (IsRestoredAt processors kind_version records entry.now shelves.new) }
    ensures blanks { OnOk result (blanks_in stock.new
        ≡ with_taken (blank_of_entry kind_version entry.now) (blanks_in stock.old)) }
    ensures idle { All IsIdle shelves.new }
    ensures count { length shelves.new ≡ length shelves.old }
    ensures counted { IsCountedAmong shelves.new stock.new }
    ensures supplied { supplied_to stock.new ≡ supplied_to stock.old }
    ensures keeping { keeping_of stock.new ≡ keeping_of stock.old }
{
    let elem = entry.element;
    let Some(packed) = entry.packed else {
        return Ok(Element {
            place: None,
            sent: entry.sent,
            received: entry.received,
        });
    };
    let element = Element {
        place: Some(home_on(elem, processors)),
        sent: entry.sent,
        received: entry.received,
    };
    place_at_home(
        processors,
        shelves,
        stock,
        elem,
        element,
        kind_version,
        packed,
    )?;
    Ok(element)
}

/// Delivers a message to its receiver of this kind version on the shelf of its home, or constructs
/// it there from a blank of its kind. Answers the receiver's place and counts afterwards, and its
/// output. `Fault` if it needs a blank and there is none; `Memory`.
pub(crate) fn receive_at_home<C: Chare>(
    processors: u16,
    shelves: &mut [Shelf<C>],
    stock: &mut Stock<C>,
    receiver: Element,
    kind_version: KindVersion,
    message: Message,
) -> Result<(Element, Output), Stopped>
    requires processors { is_processor_count processors ≡ true }
    requires known { (records : List (names.Elem × Record)) × AreHome processors records shelves.old
        × IsKnownAs kind_version (record_at records message.to) receiver
        × (takes (record_at records message.to) message.entry ≡ true) }
    requires counted { IsCountedAmong shelves.old stock.old }
    ensures ok { (records : List (names.Elem × Record)) → AreHome processors records shelves.old →
        IsKnownAs kind_version (record_at records message.to) receiver →
        takes (record_at records message.to) message.entry ≡ true →
        IfOk result (λ done. IsReceivedAt processors kind_version records message shelves.new done.0
        × IsOutputAt kind_version records message done.1) }
    ensures blanks { OnOk result (blanks_in stock.new
        ≡ with_taken (blank_for kind_version receiver) (blanks_in stock.old)) }
    ensures fault { result ≡ Err stops.Fault → (receiver.place ≡ None)
        × (blanks_in stock.old (kind_of_version kind_version) ≡ 0) }
    ensures idle { All IsIdle shelves.new }
    ensures count { length shelves.new ≡ length shelves.old }
    ensures counted { IsCountedAmong shelves.new stock.new }
    ensures supplied { supplied_to stock.new ≡ supplied_to stock.old }
    ensures keeping { keeping_of stock.new ≡ keeping_of stock.old }
{
    let place = place_of_home(message.to, processors);
    receive(&mut shelves[place], stock, receiver, kind_version, message)
}
