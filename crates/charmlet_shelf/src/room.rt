//! Memory that is reserved before a shelf is locked.

ghost use Rattle.std.specs.Prelude.{◌≡◌, []};

use crate::image::Image;
use std::alloc::{AllocError, Global};
use std::mem;

/// Room for the images of a shelf, made before the shelf is locked: for their list, and for the
/// bytes of each. If the shelf has other objects by then, the images take the memory that is
/// lacking.
#[derive(Drop)]
pub struct ImageRoom {
    alloc: Global,
    /// How many objects the shelf had.
    objects: usize,
    /// How many bytes they packed to when they were measured, in the order in which they stood.
    sizes: Vec<usize>,
    /// A buffer for each of them, the first one last.
    buffers: Vec<Vec<u8>>,
    images: Vec<Image>,
}

impl ImageRoom {
    /// An empty room for a shelf with this many objects. It takes no memory.
    pub(crate) fn new(alloc: Global, objects: usize) -> Self {
        ImageRoom {
            alloc,
            objects,
            sizes: Vec::new(alloc),
            buffers: Vec::new(alloc),
            images: Vec::new(alloc),
        }
    }

    /// Makes room to measure the objects of the shelf. It fails only when out of memory.
    pub fn prepare(&mut self) -> Result<(), AllocError> {
        self.sizes.reserve(self.objects)
    }

    /// Makes room for the images of the objects that were measured. It fails only when out of
    /// memory.
    pub fn reserve(&mut self) -> Result<(), AllocError> {
        let measured = self.sizes.len();
        self.images.reserve(measured)?;
        self.buffers.reserve(measured)?;
        while let Some(size) = self.sizes.pop() {
            let buffer = Vec::with_capacity(self.alloc, size)?;
            self.buffers.push(buffer)?;
        }
        Ok(())
    }

    /// Notes the packed size of an object in bytes, if there is room for it. It takes no memory.
    pub(crate) fn note_size(&mut self, size: usize) {
        if self.sizes.len() < self.sizes.capacity() {
            let Ok(()) = self.sizes.push(size) else {
                unreachable!()
            };
        }
    }

    /// The list for the images, which is empty.
    pub(crate) fn take_list(&mut self) -> Vec<Image>
        ensures { result.items ≡ [] }
    {
        let mut images = mem::replace(&mut self.images, Vec::new(self.alloc));
        images.clear();
        images
    }

    /// An empty buffer: the next image's buffer, if there is one.
    pub(crate) fn next_buffer(&mut self) -> Vec<u8>
        ensures { result.items ≡ [] }
    {
        let Some(next) = self.buffers.pop() else {
            return Vec::new(self.alloc);
        };
        let mut buffer = next;
        buffer.clear();
        buffer
    }
}
