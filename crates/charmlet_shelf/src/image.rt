//! Images of elements.

ghost use Rattle.std.specs.Prelude.{◌≡◌, ◌<◌, true, [], IfOk, IfSome, Some, is_some, length, slice_get};
ghost use Rattle.std.specs.BTreeMap.{is_at};
ghost use Rattle.std.specs.Map.{keys_of, lookup};
ghost use Rattle.charmlet_model.specs.declared.names.Elem.{Elem as AnElem};
ghost use Rattle.charmlet_model.specs.declared.state.Record.{Record};
ghost use Rattle.charmlet_model.specs.Names.{elem_cmp};
ghost use Rattle.charmlet_model.specs.Shelves.{record_in, records_of};
ghost use Rattle.charmlet_shelf.specs.Image.{AreImages, IsImage};
ghost use Rattle.charmlet_shelf.specs.Risen.{risen};

use crate::residents::index_of;
use crate::room::ImageRoom;
use charmlet_chare::Chare;
use charmlet_model::{Elem, Resident};
use indexmap::IndexMap;
use std::alloc::{AllocError, Global};

/// A present element's packed state, and how many messages it sent and received in its whole life.
#[derive(Debug, Drop)]
pub struct Image {
    pub elem: Elem,
    pub sent: u64,
    pub received: u64,
    pub packed: Vec<u8>,
}

/// Takes the image of each element, in the order of the table, in the memory of the room. It takes
/// more memory only if the room is too small, and fails only when out of memory. The objects show
/// the same states as before.
pub(crate) fn images_of<C: Chare>(
    residents: &mut IndexMap<Elem, Resident<C>>,
    room: ImageRoom,
) -> Result<Vec<Image>, AllocError>
    ensures ok { IfOk result (λ images.
        AreImages (records_of C.state (risen residents.old.entries))
        (keys_of (risen residents.old.entries)) images.items) }
    ensures same { records_of C.state (risen residents.new.entries)
        ≡ records_of C.state (risen residents.old.entries) }
{
    let mut room = room;
    let mut images = room.take_list();
    for index in 0..residents.len() {
        let image = image_standing(residents, index, room.next_buffer())?;
        images.push(image)?;
    }
    Ok(images)
}

/// Takes the image of the element at this index, in an empty buffer. It fails only when out of
/// memory. The objects show the same states as before.
fn image_standing<C: Chare>(
    residents: &mut IndexMap<Elem, Resident<C>>,
    index: usize,
    buffer: Vec<u8>,
) -> Result<Image, AllocError>
    requires within { index < length residents.old.entries }
    requires empty { buffer.items ≡ [] }
    ensures ok { IfOk result (λ image. (e : AnElem × Record)
        × (slice_get (records_of C.state residents.old.entries) index ≡ Some e)
        × IsImage image e.0 e.1) }
    ensures same { records_of C.state residents.new.entries
        ≡ records_of C.state residents.old.entries }
    ensures len { length residents.new.entries ≡ length residents.old.entries }
{
    let (elem, resident) = residents.pair_mut(index);
    image_of(*elem, resident, buffer)
}

/// Notes in the room the packed size of each object in bytes, in the order of the table, as far as
/// the room suffices. It takes no memory. The objects show the same states as before.
pub(crate) fn measure_all<C: Chare>(
    residents: &mut IndexMap<Elem, Resident<C>>,
    room: &mut ImageRoom,
)
    ensures { records_of C.state (risen residents.new.entries)
        ≡ records_of C.state (risen residents.old.entries) }
{
    for index in 0..residents.len() {
        let (_elem, resident) = residents.pair_mut(index);
        room.note_size(resident.object.size());
    }
}

/// Takes the image of a present element. It fails only when out of memory. The objects show the
/// same states as before.
pub(crate) fn image_at<C: Chare>(
    alloc: Global,
    residents: &mut IndexMap<Elem, Resident<C>>,
    elem: Elem,
) -> Result<Image, AllocError>
    requires { is_some (lookup (is_at (elem_cmp elem)) (risen residents.old.entries)) ≡ true }
    ensures ok { IfOk result (λ image.
        IfSome (lookup (is_at (elem_cmp elem)) (records_of C.state (risen residents.old.entries)))
        (IsImage image elem)) }
    ensures same { records_of C.state (risen residents.new.entries)
        ≡ records_of C.state (risen residents.old.entries) }
{
    let Some(index) = index_of(residents, elem) else {
        unreachable!()
    };
    let (_elem, resident) = residents.pair_mut(index);
    image_of(elem, resident, Vec::new(alloc))
}

/// Takes the image of an element with its object, in an empty buffer. It fails only when out of
/// memory, and the object shows the same state as before.
fn image_of<C: Chare>(
    elem: Elem,
    resident: &mut Resident<C>,
    buffer: Vec<u8>,
) -> Result<Image, AllocError>
    requires { buffer.items ≡ [] }
    ensures ok { IfOk result (λ image. IsImage image elem (record_in C.state resident.old)) }
    ensures same { record_in C.state resident.new ≡ record_in C.state resident.old }
{
    let mut packed = buffer;
    resident.object.pack(&mut packed)?;
    Ok(Image {
        elem,
        sent: resident.sent,
        received: resident.received,
        packed,
    })
}
