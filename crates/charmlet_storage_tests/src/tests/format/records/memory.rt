ghost use Rattle.std.specs.Prelude.{◌≡◌, All, length};
ghost use Rattle.charmlet_record.specs.Limits.{IsShort};

use super::wal_buffer::delivery;
use super::worked::FIRST_FLUSH;
use crate::tests::format::images::worked::are_events;
use crate::tests::format::is_count;
use charmlet_model::{Logged, Manifest};
use charmlet_record::{ReadError, Reader, append_batch, append_event, read_log};
use std::alloc::{AllocError, Global};
use std::process::Abort;
use std::test::Fail;

// The first flush has its two events. When out of memory, it is read at the second try.
fn reads_log(rt: &impl Abort, alloc: Global, manifest: &Manifest) -> Result<(), ReadError> {
    let events = match read_log(&mut Reader::new(&FIRST_FLUSH), alloc, manifest) {
        Ok(events) => events,
        Err(error) => {
            assert_eq!(rt; error, ReadError::Memory);
            read_log(&mut Reader::new(&FIRST_FLUSH), alloc, manifest)?
        }
    };
    are_events(rt, &events, 65, 28);
    Ok(())
}

#[test]
fn refused_memory_is_told_by_readers(rt: HostRuntime) -> Result<(), Fail> {
    let arrays = [(0, 1)];
    let manifest = match Manifest::of(rt.alloc(), &arrays) {
        Ok(manifest) => manifest,
        Err(_) => Manifest::of(rt.alloc(), &arrays)?,
    };
    let manifest = manifest.ok_or("no manifest")?;
    reads_log(&rt, rt.alloc(), &manifest)?;
    Ok(())
}

// The event is added, and then a batch of one. When out of memory, nothing has changed, and it is
// added at the second try.
fn adds(
    rt: &impl Abort,
    bytes: &mut Vec<u8>,
    event: &Logged,
    batch: &[Logged],
) -> Result<(), AllocError>
    requires event { IsShort event.now }
    requires one { length batch.now ≡ 1 }
    requires short { All IsShort batch.now }
{
    if append_event(bytes, event).is_err() {
        is_count(rt, bytes.len(), 0);
        append_event(bytes, event)?;
    }
    is_count(rt, bytes.len(), 27);
    if append_batch(bytes, batch).is_err() {
        is_count(rt, bytes.len(), 27);
        append_batch(bytes, batch)?;
    }
    is_count(rt, bytes.len(), 62);
    Ok(())
}

#[test]
fn refused_memory_leaves_the_bytes(rt: HostRuntime) -> Result<(), Fail> {
    let mut bytes = Vec::new(rt.alloc());
    let batch = [delivery(rt.alloc())];
    adds(&rt, &mut bytes, &delivery(rt.alloc()), &batch)?;
    Ok(())
}
