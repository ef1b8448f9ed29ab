//! The blanks that the entries of an image need: one for each that has an object.

ghost use Rattle.std.specs.Prelude.{◌≡◌, ◌&&◌, IfOk, is_some, map};
ghost use Rattle.std.specs.List.Sorted.{IsStrictlySortedBy};
ghost use Rattle.std.specs.Map.{keys_of};
ghost use Rattle.charmlet_model.specs.declared.kind.Kind.{Kind};
ghost use Rattle.charmlet_model.specs.Names.{elem_cmp};
ghost use Rattle.charmlet_image.specs.Views.{entry_said};
ghost use Rattle.charmlet_recovery.specs.Blanks.{array_is, is_of, wanted_by_records};
ghost use Rattle.charmlet_recover.specs.Maps.{counts_in};
ghost use Rattle.charmlet_recover.specs.Wanted.{blanks_in};

use crate::wanted::Wanted;
use charmlet_image::Entry;
use charmlet_model::{Elem, KindVersion, Manifest};
use std::alloc::{AllocError, Global};
use std::collections::BTreeMap;

/// The kind version of an entry's object, if it has one.
fn kind_version_held(manifest: &Manifest, entry: &Entry<'_>) -> Option<KindVersion>
    ensures { (kind : Kind) → is_of kind result ≡ (is_some entry.now.packed
        && array_is manifest.now kind entry.now.element.array) }
{
    if entry.packed.is_some() {
        manifest.kind_version_of(entry.element.array)
    } else {
        None
    }
}

/// The blanks that the entries need.
pub(crate) fn count_entries(manifest: &Manifest, entries: &[Entry<'_>]) -> Wanted
    ensures { (kind : Kind) → blanks_in result kind
        ≡ wanted_by_records manifest.now kind (map (entry_said manifest.now) entries.now) }
{
    let mut wanted = Wanted::none();
    for entry in entries {
        wanted.count(kind_version_held(manifest, entry));
    }
    wanted
}

/// How many messages each of these elements had received; the entries rise. It fails only when out
/// of memory.
pub(crate) fn received_of(
    alloc: Global,
    entries: &[Entry<'_>],
) -> Result<BTreeMap<Elem, u64>, AllocError>
    requires { IsStrictlySortedBy elem_cmp (keys_of (counts_in entries.now)) }
    ensures { IfOk result (λ received. received.entries ≡ counts_in entries.now) }
{
    let mut received = BTreeMap::new(alloc);
    for entry in entries {
        received.insert(entry.element, entry.received)?;
    }
    Ok(received)
}
