ghost use Rattle.std.specs.Prelude.{IsOk};
ghost use Rattle.charmlet_record.specs.Reading.{read_log};

use super::stores::{CAUGHT_STORE, FLUSHED_STORE, WAITING_STORE};
use charmlet_image::{HalfView, LogBatches, OpenHalf, new_store, read_half};
use charmlet_model::Manifest;
use std::alloc::{AllocError, Global};
use std::process::Abort;
use std::test::Fail;

#[test]
fn refused_memory_is_told_by_read_half(rt: HostRuntime) -> Result<(), Fail> {
    let alloc = rt.alloc();
    for bytes in [CAUGHT_STORE.as_slice(), WAITING_STORE.as_slice()] {
        let half = match read_half(alloc, bytes) {
            Ok(half) => half,
            Err(_) => read_half(alloc, bytes)?,
        };
        assert!(rt; matches!(half, HalfView::Open(_)));
    }
    Ok(())
}

// The half has a batch. When out of memory, it is read at the second try.
fn has_batch(rt: &impl Abort, alloc: Global, half: &OpenHalf<'_>) -> Result<(), AllocError>
    requires { IsOk (read_log half.now.image.manifest half.now.log.rest.now) }
{
    let mut batches = LogBatches::new(&half.log);
    let batch = match batches.next_batch(alloc, &half.image.manifest) {
        Ok(batch) => batch,
        Err(_) => batches.next_batch(alloc, &half.image.manifest)?,
    };
    assert!(rt; batch.is_some());
    Ok(())
}

#[test]
fn refused_memory_leaves_the_log(rt: HostRuntime) -> Result<(), Fail> {
    let alloc = rt.alloc();
    let half = match read_half(alloc, &FLUSHED_STORE) {
        Ok(half) => half,
        Err(_) => read_half(alloc, &FLUSHED_STORE)?,
    };
    let HalfView::Open(half) = half else {
        return Err("not open")?;
    };
    has_batch(&rt, alloc, &half)?;
    Ok(())
}

#[test]
fn refused_memory_is_told_by_new_store(rt: HostRuntime) -> Result<(), Fail> {
    let alloc = rt.alloc();
    let arrays = [(0, 1)];
    let manifest = match Manifest::of(alloc, &arrays) {
        Ok(manifest) => manifest,
        Err(_) => Manifest::of(alloc, &arrays)?,
    };
    let manifest = manifest.ok_or("no manifest")?;
    let bytes = match new_store(alloc, &manifest) {
        Ok(bytes) => bytes,
        Err(_) => new_store(alloc, &manifest)?,
    };
    assert_eq!(rt; bytes.len(), 51);
    Ok(())
}
