//! The image of the present world, with its header.

ghost use Rattle.std.specs.Prelude.{◌≡◌, ◌≤◌, ◌^◌, ◌++◌, IfErr, IfOk, OnOk, drop, length, vec_len};
ghost use Rattle.charmlet_pup.specs.Fields.{number_bytes};
ghost use Rattle.charmlet_model.specs.Core.{end_of_image};
ghost use Rattle.charmlet_model.specs.Spelling.{spell_list};
ghost use Rattle.charmlet_model.specs.declared.refusal.Refusal.TheVariants as refusals;
ghost use Rattle.charmlet_image.specs.declared.header.Mark.TheVariants.{Third};
ghost use Rattle.charmlet_image.specs.Images.{spell_array, spell_header};
ghost use Rattle.charmlet_history.specs.Kept.{core_in};
ghost use Rattle.charmlet_persist.specs.Snapshot.Showing.{IsImageOf, IsRefusal, IsShown, IsWithinLimits, spell_present};

use crate::snapshot::clients::append_clients;
use crate::snapshot::pending::append_pending;
use crate::snapshot::records::{append_records, count_records};
use charmlet_chare::Chare;
use charmlet_history::History;
use charmlet_image::{
    HEADER_SIZE, Header, MAX_GENERATION, Mark, arrays_size, write_arrays, write_header,
};
use charmlet_model::{MAX_HALF, Manifest, Refusal};
use charmlet_record::write_u32;
use charmlet_shelf::Shelf;
use std::alloc::{AllocError, Global};

/// The closed gate after an image, where a log without batches ends.
const CLOSED: u8 = 0;

/// Encodes a checkpoint as a half file after its open gate. The bytes are a header of the next
/// generation, the image of the present world, and the closed gate of a log that has no batch yet.
/// The header counts all events, including those that aren't durable. The shelves show the present
/// world, and no delivery is under way. `Memory` if out of memory; `ImageFull` if the next
/// generation would be past 2^40, or the file past 2^31 bytes. The history and the shelves are
/// unchanged.
pub fn image_of<C: Chare>(
    alloc: Global,
    history: &History,
    shelves: &mut [Shelf<C>],
) -> Result<Vec<u8>, Refusal>
    requires { IsShown history.now shelves.old }
    ensures bytes { IfOk result (λ bytes. IsImageOf (core_in history.now) bytes.items) }
    ensures size { IfOk result (λ bytes. length bytes.items ≡ end_of_image (core_in history.now)) }
    ensures within { IfOk result (λ bytes. IsWithinLimits (core_in history.now)) }
    ensures err { IfErr result (λ refusal. IsRefusal (core_in history.now) refusal) }
    ensures same { shelves.new ≡ shelves.old }
{
    let generation = history.generation();
    if generation >= MAX_GENERATION {
        return Err(Refusal::ImageFull);
    }
    let mut bytes = vec![in alloc; 0; HEADER_SIZE]?;
    append_lists(alloc, &mut bytes, history, shelves)?;
    let size = bytes.len() - HEADER_SIZE;
    bytes.push(CLOSED)?;
    // The open gate before these bytes is one byte more.
    if bytes.len() as u64 >= MAX_HALF {
        return Err(Refusal::ImageFull);
    }
    let header = Header {
        mark: Mark::Third,
        generation: generation + 1,
        events: history.event_count(),
        size: size as u32,
    };
    fill_header(alloc, &mut bytes, &header)?;
    Ok(bytes)
}

/// Appends the five lists of the image of the present world, the last of which is empty. `Memory`
/// if out of memory; `ImageFull` if a list has more items than its count can say, which is past the
/// limit of a file too. The shelves are unchanged.
fn append_lists<C: Chare>(
    alloc: Global,
    out: &mut Vec<u8>,
    history: &History,
    shelves: &mut [Shelf<C>],
) -> Result<(), Refusal>
    requires { IsShown history.now shelves.old }
    ensures ok { OnOk result (out.new.items ≡ out.old.items
        ++ spell_present (core_in history.now)) }
    ensures err { IfErr result (λ refusal. IsRefusal (core_in history.now) refusal) }
    ensures same { shelves.new ≡ shelves.old }
{
    history.facts();
    append_arrays(alloc, out, history.manifest())?;
    append_clients(out, history.clients())?;
    let count = count_of(history.pending_count())?;
    append_pending(alloc, out, count, history.messages())?;
    let elements = history.elements()?;
    let count = count_of(count_records(&elements))?;
    append_records(out, count, history, &elements, shelves)?;
    append_no_items(out)?;
    Ok(())
}

/// Appends the number of arrays, and each array. It fails only when out of memory.
pub fn append_arrays(
    alloc: Global,
    out: &mut Vec<u8>,
    manifest: &Manifest,
) -> Result<(), AllocError>
    requires { length manifest.now ≤ 64 }
    ensures { OnOk result (out.new.items
        ≡ out.old.items ++ spell_list (spell_array Third) manifest.now) }
{
    let arrays = manifest.arrays(alloc)?;
    out.reserve(arrays_size(&arrays))?;
    write_arrays(out, &arrays);
    Ok(())
}

/// Appends a list that has no items. It fails only when out of memory.
fn append_no_items(out: &mut Vec<u8>) -> Result<(), AllocError>
    ensures { OnOk result (out.new.items ≡ out.old.items ++ number_bytes 4 0) }
{
    out.reserve(4)?;
    write_u32(out, 0);
    Ok(())
}

/// The length of a list as the count before its items. `ImageFull` if it needs more than 32 bits.
pub fn count_of(len: usize) -> Result<u32, Refusal>
    ensures ok { IfOk result (λ count. count ≡ len) }
    ensures err { IfErr result (λ refusal. (refusal ≡ refusals.ImageFull) × (2 ^ 32 ≤ len)) }
{
    let Ok(count) = u32::try_from(len) else {
        return Err(Refusal::ImageFull);
    };
    Ok(count)
}

/// Writes a header over the first bytes, which are its room. It fails only when out of memory.
pub fn fill_header(alloc: Global, out: &mut Vec<u8>, header: &Header) -> Result<(), AllocError>
    requires { HEADER_SIZE ≤ vec_len out.old }
    ensures { OnOk result (out.new.items ≡ spell_header header.now
        ++ drop HEADER_SIZE out.old.items) }
{
    let mut bytes = Vec::with_capacity(alloc, HEADER_SIZE)?;
    write_header(&mut bytes, header);
    overwrite(out, &bytes);
    Ok(())
}

/// Writes bytes over the first ones.
fn overwrite(out: &mut Vec<u8>, bytes: &[u8])
    requires { length bytes.now ≤ vec_len out.old }
    ensures { out.new.items ≡ bytes.now ++ drop (length bytes.now) out.old.items }
{
    out[0..bytes.len()].copy_from_slice(bytes);
}
