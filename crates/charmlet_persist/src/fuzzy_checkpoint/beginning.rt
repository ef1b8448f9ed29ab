//! The beginning of a checkpoint.

ghost use Rattle.std.specs.Prelude.{◌≡◌, [], IfOk, OnOk};
ghost use Rattle.charmlet_shelf.specs.Risen.{risen};
ghost use Rattle.charmlet_history.specs.Kept.{core_in};
ghost use Rattle.charmlet_persist.specs.FuzzyCheckpoint.Checkpoint.{IsRunning, begun_in, with_all_left, with_left};

use crate::fuzzy_checkpoint::captured_element::{CapturedElement, put};
use crate::fuzzy_checkpoint::checkpoint::FuzzyCheckpoint;
use charmlet_history::History;
use charmlet_model::Elem;
use charmlet_world::Element;
use indexmap::IndexMap;
use std::alloc::{AllocError, Global};
use std::collections::BTreeMap;

impl FuzzyCheckpoint {
    /// Begins a checkpoint, with room for `deliveries` deliveries, the number of messages that are
    /// assigned already. An absent element is captured by its record now, if it has one. There is
    /// room for the other elements. It fails only when out of memory.
    pub fn begin(alloc: Global, history: &History, deliveries: usize) -> Result<Self, AllocError>
        ensures begun { IfOk result (λ running. running ≡ begun_in history.now deliveries) }
        ensures running { IfOk result (λ running. IsRunning (core_in history.now) running) }
    {
        history.facts();
        let left = history.left()?;
        let most = history.element_count().saturating_add(deliveries);
        let mut running = FuzzyCheckpoint {
            begun: history.event_count(),
            captured: capture_all(alloc, most, &left)?,
            caught_up: Vec::new(alloc),
            count: 0,
            room: 0,
        };
        running.reserve(deliveries)?;
        Ok(running)
    }
}

/// Captures each absent element that has a record, in a table with room for at most `most`
/// elements. It fails only when out of memory.
fn capture_all(
    alloc: Global,
    most: usize,
    left: &BTreeMap<Elem, Element>,
) -> Result<IndexMap<Elem, Option<CapturedElement>>, AllocError>
    ensures { IfOk result (λ table. risen table.entries ≡ with_all_left [] left.now.entries) }
{
    let mut table = IndexMap::new(alloc);
    table.reserve(most)?;
    for (elem, element) in left {
        capture_left(&mut table, *elem, element)?;
    }
    Ok(table)
}

/// Captures an element by the record that it left. It fails only when out of memory.
fn capture_left(
    table: &mut IndexMap<Elem, Option<CapturedElement>>,
    elem: Elem,
    element: &Element,
) -> Result<(), AllocError>
    ensures { OnOk result (risen table.new.entries
        ≡ with_left (risen table.old.entries) (elem, element.now)) }
{
    let left = CapturedElement {
        sent: element.sent,
        received: element.received,
        packed: None,
    };
    put(table, elem, Some(left))
}
