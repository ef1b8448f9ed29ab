//! The images of a shelf.

ghost use Rattle.std.specs.Prelude.{◌≡◌, ◌+◌, ◌≤◌, All, OnOk, OnErr, length};
ghost use Rattle.indexmap.specs.IndexMap.{spare};
ghost use Rattle.charmlet_model.specs.Core.{present};
ghost use Rattle.charmlet_shelf.specs.Risen.{risen};
ghost use Rattle.charmlet_history.specs.Kept.{core_in};
ghost use Rattle.charmlet_persist.specs.FuzzyCheckpoint.Checkpoint.{IsRunning, IsShownBy, with_image, with_images};

use crate::fuzzy_checkpoint::captured_element::{CapturedElement, is_captured, put};
use crate::fuzzy_checkpoint::checkpoint::FuzzyCheckpoint;
use charmlet_history::History;
use charmlet_model::Elem;
use charmlet_shelf::Image;
use indexmap::IndexMap;
use std::alloc::AllocError;

impl FuzzyCheckpoint {
    /// Captures the elements of a shelf by their images, except those that are captured already.
    /// Each image agrees with the present world, in which its element is present. When out of
    /// memory, nothing changes.
    pub fn capture_shelf(&mut self, history: &History, images: Vec<Image>) -> Result<(), AllocError>
        requires running { IsRunning (core_in history.now) self.old }
        requires shown { All (IsShownBy (present (core_in history.now))) images.items }
        ensures ok { OnOk result (self.new
            ≡ record self.old { captured = with_images self.old.captured images.items }) }
        ensures err { OnErr result (self.new ≡ self.old) }
        ensures running { IsRunning (core_in history.now) self.new }
    {
        history.facts();
        self.capture_images(images)
    }

    /// Captures the elements of these images, except those that are captured already. When out of
    /// memory, nothing changes.
    fn capture_images(&mut self, images: Vec<Image>) -> Result<(), AllocError>
        ensures ok { OnOk result (self.new
            ≡ record self.old { captured = with_images self.old.captured images.items }) }
        ensures err { OnErr result (self.new ≡ self.old) }
    {
        let Some(entries) = images.len().checked_add(self.room) else {
            return Err(AllocError);
        };
        self.captured.reserve(entries)?;
        capture_all(&mut self.captured, images);
        Ok(())
    }
}

/// Captures elements by their images, except those that are captured already. It takes no memory.
fn capture_all(table: &mut IndexMap<Elem, Option<CapturedElement>>, images: Vec<Image>)
    requires { length images.items ≤ spare table.old }
    ensures captured { risen table.new.entries
        ≡ with_images (risen table.old.entries) images.items }
    ensures room { spare table.old ≤ spare table.new + length images.items }
{
    let mut images = images;
    while let Some(image) = images.pop() {
        capture_by(table, image);
    }
}

/// Captures an element by its image, unless it is captured already. It takes no memory.
fn capture_by(table: &mut IndexMap<Elem, Option<CapturedElement>>, image: Image)
    requires { 1 ≤ spare table.old }
    ensures captured { risen table.new.entries ≡ with_image (risen table.old.entries) image }
    ensures room { spare table.old ≤ spare table.new + 1 }
{
    let Image {
        elem,
        sent,
        received,
        packed,
    } = image;
    let is_known = is_captured(table, elem);
    if is_known {
        return;
    }
    let captured = CapturedElement {
        sent,
        received,
        packed: Some(packed),
    };
    let Ok(()) = put(table, elem, Some(captured)) else {
        unreachable!()
    };
}
