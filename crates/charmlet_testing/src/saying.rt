//! The output of lines.

use crate::store::Failed;
use charmlet_cli::write_line;
use std::alloc::Global;
use std::fmt;
use std::io::Write;

/// Prints a line. If memory is refused, it is tried once more.
pub fn say<T: fmt::Display>(alloc: Global, out: &mut Vec<u8>, line: &T) -> Result<(), Failed> {
    if write_line(alloc, out, line).is_err() {
        write_line(alloc, out, line)?;
    }
    Ok(())
}

/// Prints bytes in hexadecimal, sixteen a line.
pub fn say_bytes(out: &mut Vec<u8>, bytes: &[u8]) -> Result<(), Failed> {
    for row in bytes.chunks(16) {
        for (place, byte) in row.iter().enumerate() {
            let gap = if place == 0 { "" } else { " " };
            write!(out, "{gap}{byte:02x}")?;
        }
        writeln!(out)?;
    }
    Ok(())
}
