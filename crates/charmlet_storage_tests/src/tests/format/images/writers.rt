use super::stores::NEW_STORE;
use crate::tests::format::are_bytes;
use charmlet_image::new_store;
use charmlet_model::Manifest;

#[test]
fn new_store_is_written(rt: HostRuntime) {
    let manifest = Manifest::of(rt.alloc(), &[(0, 1)]).expect(&rt, "memory");
    let manifest = manifest.expect(&rt, "a manifest");
    let bytes = new_store(rt.alloc(), &manifest).expect(&rt, "memory");
    are_bytes(&rt, &bytes, &NEW_STORE[1..]);
}
