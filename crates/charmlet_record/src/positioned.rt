//! Records with their places.

/// A record and its place: how many bytes of the file were left from its first byte on.
#[derive(Debug, Drop)]
pub struct Positioned<T: Drop> {
    pub bytes_left: usize,
    pub item: T,
}
