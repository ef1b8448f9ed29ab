//! Writers of headers and of images' records. A function that begins with `write_` uses room that
//! is already there, and takes no memory.

ghost use Rattle.std.specs.Prelude.{◌≡◌, ◌+◌, ◌*◌, ◌≤◌, ◌<◌, ◌^◌, ◌++◌, All, IfOk, IfSome, length, option_copied, option_map, vec_capacity, vec_len};
ghost use Rattle.std.specs.List.{flat_map};
ghost use Rattle.charmlet_model.specs.Spelling.{spell_list};
ghost use Rattle.charmlet_record.specs.Limits.{AreFewWords};
ghost use Rattle.charmlet_image.specs.declared.header.Mark.TheVariants.{Third};
ghost use Rattle.charmlet_image.specs.Images.{mark_number, spell_array, spell_client, spell_header, spell_item};
ghost use Rattle.charmlet_image.specs.NewStores.{empty_lists, new_half, spell_packed_entry};

use crate::entries::Entry;
use crate::header::{HEADER_SIZE, Header, Mark};
use charmlet_model::{ClientRow, KindVersion, Manifest, Window, Words};
use charmlet_record::{
    write_bytes, write_elem, write_u8, write_u16, write_u32, write_u64, write_words,
};
use std::alloc::{AllocError, Global};

/// Writes a header into the room that there is.
#[tactic(auto, using(charmlet_record::proofs::Lengths::lengths), unfolding(crate::specs::Images::spell_header))]
pub fn write_header(out: &mut Vec<u8>, header: &Header)
    requires { vec_len out.old + HEADER_SIZE ≤ vec_capacity out.old }
    ensures bytes { out.new.items ≡ out.old.items ++ spell_header header.now }
    ensures size { vec_len out.new ≡ vec_len out.old + HEADER_SIZE }
    ensures capacity { vec_capacity out.old ≤ vec_capacity out.new }
{
    write_u32(out, header.mark.number());
    write_u64(out, header.generation);
    write_u64(out, header.events);
    write_u32(out, header.size);
}

/// Writes an array, its kind and its version into the room that there is.
#[tactic(auto, using(charmlet_record::proofs::Lengths::lengths), unfolding(crate::specs::Images::spell_array, crate::specs::Images::spell_kind_version))]
fn write_array(out: &mut Vec<u8>, array: u16, kind_version: KindVersion)
    requires { vec_len out.old + 6 ≤ vec_capacity out.old }
    ensures bytes { out.new.items ≡ out.old.items ++ spell_array Third (array, kind_version) }
    ensures capacity { vec_capacity out.old ≤ vec_capacity out.new }
{
    write_u16(out, array);
    write_u16(out, kind_version.kind().number());
    write_u16(out, kind_version.version());
}

/// Writes the arrays of a manifest into the room that there is: their number, and six bytes for
/// each.
pub fn write_arrays(out: &mut Vec<u8>, arrays: &[(u16, KindVersion)])
    requires few { length arrays.now ≤ 64 }
    requires room { vec_len out.old + 4 + 6 * length arrays.now ≤ vec_capacity out.old }
    ensures bytes { out.new.items ≡ out.old.items ++ spell_list (spell_array Third) arrays.now }
    ensures capacity { vec_capacity out.old ≤ vec_capacity out.new }
{
    write_u32(out, arrays.len() as u32);
    for (array, kind_version) in arrays {
        write_array(out, *array, *kind_version);
    }
}

/// Writes an item of a client's window into the room that there is: a reply, or none.
#[tactic(auto, using(charmlet_record::proofs::Lengths::lengths), unfolding(crate::specs::Images::spell_item))]
fn write_item(out: &mut Vec<u8>, item: Option<&Words>)
    requires few { IfSome (option_copied item) AreFewWords }
    requires room { vec_len out.old + length (spell_item (option_copied item))
        ≤ vec_capacity out.old }
    ensures bytes { out.new.items ≡ out.old.items ++ spell_item (option_copied item.entry) }
    ensures capacity { vec_capacity out.old ≤ vec_capacity out.new }
{
    match item {
        None => write_u8(out, 0),
        Some(words) => {
            write_u8(out, 1);
            write_words(out, words);
        }
    }
}

/// Writes the items of a client's window into the room that there is.
fn write_items(out: &mut Vec<u8>, window: &Window)
    requires few { All (λ item. IfSome item AreFewWords) window.now }
    requires room { vec_len out.old + length (flat_map spell_item window.now)
        ≤ vec_capacity out.old }
    ensures bytes { out.new.items ≡ out.old.items ++ flat_map spell_item window.now }
    ensures capacity { vec_capacity out.old ≤ vec_capacity out.new }
{
    for place in 0..window.len() {
        write_item(out, window.get(place));
    }
}

/// Writes a client and its row, under the third mark, into the room that there is.
#[tactic(auto, using(charmlet_record::proofs::Lengths::lengths), unfolding(crate::specs::Images::spell_client, crate::specs::Images::spell_window))]
pub fn write_client(out: &mut Vec<u8>, client: u32, row: &ClientRow)
    requires few { All (λ item. IfSome item AreFewWords) row.now.window }
    requires room { vec_len out.old + length (spell_client Third (client, row.now))
        ≤ vec_capacity out.old }
    ensures bytes { out.new.items ≡ out.old.items ++ spell_client Third (client, row.now) }
    ensures capacity { vec_capacity out.old ≤ vec_capacity out.new }
{
    write_u32(out, client);
    write_u64(out, row.last);
    write_u8(out, row.window.len() as u8);
    write_items(out, &row.window);
}

/// Writes an entry into the room that there is. Its packed bytes are written unchanged.
#[tactic(auto, using(charmlet_record::proofs::Lengths::lengths), unfolding(crate::specs::NewStores::spell_packed_entry, charmlet_pup::specs::Fields::byte_list))]
pub fn write_entry(out: &mut Vec<u8>, entry: &Entry<'_>)
    requires small { IfSome entry.now.packed (λ packed. length packed.now < 2 ^ 32) }
    requires room { vec_len out.old + length (spell_packed_entry entry.now) ≤ vec_capacity out.old }
    ensures bytes { out.new.items ≡ out.old.items ++ spell_packed_entry entry.now }
    ensures capacity { vec_capacity out.old ≤ vec_capacity out.new }
{
    write_elem(out, entry.element);
    write_u64(out, entry.sent);
    write_u64(out, entry.received);
    match entry.packed {
        None => write_u8(out, 0),
        Some(packed) => {
            write_u8(out, 1);
            write_u32(out, packed.len() as u32);
            write_bytes(out, packed);
        }
    }
}

/// The bytes after the gate of a new store's open half: a header of generation 1, an image of these
/// arrays and nothing else, and the closed gate of an empty log. It fails only when out of memory.
pub fn new_store(alloc: Global, manifest: &Manifest) -> Result<Vec<u8>, AllocError>
    requires { length manifest.now ≤ 64 }
    ensures { IfOk result (λ bytes. bytes.items ≡ new_half manifest.now) }
{
    let arrays = manifest.arrays(alloc)?;
    let size = 20 + 6 * arrays.len();
    let mut out = Vec::with_capacity(alloc, 25 + size)?;
    write_header(
        &mut out,
        &Header {
            mark: Mark::Third,
            generation: 1,
            events: 0,
            size: size as u32,
        },
    );
    write_arrays(&mut out, &arrays);
    write_empty_lists(&mut out);
    write_bytes(&mut out, &[0]);
    Ok(out)
}

/// Writes four empty lists into the room that there is.
#[tactic(auto, using(charmlet_record::proofs::Lengths::lengths), unfolding(crate::specs::NewStores::empty_lists))]
fn write_empty_lists(out: &mut Vec<u8>)
    requires { vec_len out.old + 16 ≤ vec_capacity out.old }
    ensures bytes { out.new.items ≡ out.old.items ++ empty_lists }
    ensures capacity { vec_capacity out.old ≤ vec_capacity out.new }
{
    write_u32(out, 0);
    write_u32(out, 0);
    write_u32(out, 0);
    write_u32(out, 0);
}
