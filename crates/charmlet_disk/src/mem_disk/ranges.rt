//! Bytes at the places of ranges, each an offset and a length.
ghost use Rattle.std.specs.Prelude.{◌≡◌, ◌⊎◌, ℕ, ◌≤◌, ◌<◌, ◌+◌, ◌^◌, length, slice_index, vec_capacity};
ghost use Rattle.charmlet_disk.specs.Overlay.{IsOverlaid};
ghost use Rattle.charmlet_disk.specs.Crash.{first_halves, last_end, range_end};

// Sets each place of a range to `byte`, as far as the bytes go.
fn fill_range(bytes: &mut [u8], offset: usize, count: usize, byte: u8)
    ensures inside { (k : ℕ) → offset ≤ k → k < offset + count → k < length bytes.old
        → slice_index bytes.new k ≡ byte }
    ensures outside { (k : ℕ) → (k < offset) ⊎ (offset + count ≤ k)
        → slice_index bytes.new k ≡ slice_index bytes.old k }
{
    let end = offset.saturating_add(count).min(bytes.len());
    for k in offset..end {
        bytes[k] = byte;
    }
}

// Copies `from` at each place of a range, as far as the bytes go.
fn copy_range(to: &mut [u8], from: &[u8], offset: usize, count: usize)
    requires { length from.now ≡ length to.old }
    ensures inside { (k : ℕ) → offset ≤ k → k < offset + count → k < length to.old
        → slice_index to.new k ≡ slice_index from.now k }
    ensures outside { (k : ℕ) → (k < offset) ⊎ (offset + count ≤ k)
        → slice_index to.new k ≡ slice_index to.old k }
{
    let end = offset.saturating_add(count).min(to.len());
    for k in offset..end {
        to[k] = from[k];
    }
}

// Sets each place of the ranges to `byte`.
fn fill_ranges(bytes: &mut [u8], ranges: &[(usize, usize)], byte: u8)
    ensures { IsOverlaid ranges.now (λ _. byte) bytes.old bytes.new }
{
    for (offset, count) in ranges {
        fill_range(bytes, *offset, *count, byte);
    }
}

// Copies `from`, which is as long, at each place of the ranges.
fn copy_ranges(to: &mut [u8], from: &[u8], ranges: &[(usize, usize)])
    requires { length from.now ≡ length to.old }
    ensures { IsOverlaid ranges.now (slice_index from.now) to.old to.new }
{
    for (offset, count) in ranges {
        copy_range(to, from, *offset, *count);
    }
}

// Cuts each range to its first half.
fn halve_ranges(ranges: &mut [(usize, usize)])
    ensures { ranges.new ≡ first_halves ranges.old }
{
    for k in 0..ranges.len() {
        let (offset, count) = ranges[k];
        ranges[k] = (offset, count / 2);
    }
}

/// Sets each place of the ranges to `byte`.
pub fn fill(bytes: &mut Vec<u8>, ranges: &[(usize, usize)], byte: u8)
    ensures filled { IsOverlaid ranges.now (λ _. byte) bytes.old.items bytes.new.items }
    ensures capacity { vec_capacity bytes.new ≡ vec_capacity bytes.old }
{
    fill_ranges(bytes, ranges, byte);
}

/// Copies `from`, which is as long, at each place of the ranges.
pub fn copy(to: &mut Vec<u8>, from: &[u8], ranges: &[(usize, usize)])
    requires { length from.now ≡ length to.old.items }
    ensures copied { IsOverlaid ranges.now (slice_index from.now) to.old.items to.new.items }
    ensures capacity { vec_capacity to.new ≡ vec_capacity to.old }
{
    copy_ranges(to, from, ranges);
}

/// Cuts each range to its first half, rounded down.
pub fn halve(ranges: &mut Vec<(usize, usize)>)
    ensures { ranges.new.items ≡ first_halves ranges.old.items }
{
    halve_ranges(ranges);
}

// Where a range ends, or 0 if it is empty.
fn range_end(offset: usize, count: usize) -> usize
    requires { range_end (offset, count) < 2 ^ 64 }
    ensures { result ≡ range_end (offset, count) }
{
    if count == 0 {
        return 0;
    }
    offset + count
}

/// Where the last of the ranges ends.
pub fn end_of(ranges: &[(usize, usize)]) -> usize
    requires { last_end ranges.now < 2 ^ 64 }
    ensures { result ≡ last_end ranges.now }
{
    let mut end = 0usize;
    for (offset, count) in ranges {
        end = end.max(range_end(*offset, *count));
    }
    end
}
