//! The moments at which the output reaches its reader.

use super::noting::{Notes, new_notes, noted_counters};
use super::runs::{run_anew, script_of};
use charmlet_cli::RunError;
use std::io;
use std::io::{BufWriter, ErrorKind, Write};
use std::process::Abort;
use std::sync::Arc;

// An output that notes, at each flush, how many bytes it took and how many entries were run. After
// a number of flushes it fails.
#[derive(Drop)]
struct Flushed {
    taken: Vec<u8>,
    at: Vec<(usize, u64)>,
    most: usize,
    notes: Arc<Notes>,
}

impl Write for Flushed {
    fn write(&mut self, bytes: &[u8]) -> io::Result<usize> {
        self.taken.extend_from_slice(bytes)?;
        Ok(bytes.len())
    }

    fn flush(&mut self) -> io::Result<()> {
        if self.at.len() >= self.most {
            return Err(io::Error::from(ErrorKind::BrokenPipe));
        }
        let entries = self.notes.entries();
        self.at.push((self.taken.len(), entries))?;
        Ok(())
    }
}

// Two of the lines run an entry: `deliver` and `drain`.
const ENTERED: &str = "\
array 0 1
supply 1 1
req 7 1 0 0 65535 5
deliver 0 c7.1
req 8 1 0 0 0 3
drain 9
flush
census
pending
state 0 0
";

// How many bytes the lines before the drain print, and those up to the flush, and how many entries
// were run by then.
const REACHED: [(usize, u64); 2] = [(54, 1), (81, 2)];

// What the lines up to the flush print.
const PRINTED: &[u8] =
    b"supplied 1 1\ntold unknown\ndelivered c7.1\ntold unknown\ndrained 1 left 0\nflushed 4\n";

// An output that takes `most` flushes.
fn output_with(rt: &(impl AllocGlobal + Abort), notes: &Arc<Notes>, most: usize) -> Flushed {
    let notes = notes.clone().expect(rt, "they are shared");
    Flushed {
        taken: Vec::new(rt.alloc()),
        at: Vec::new(rt.alloc()),
        most,
        notes,
    }
}

#[test]
fn output_is_flushed_before_a_drain_and_after_a_flush(rt: HostRuntime) {
    let notes = new_notes(&rt);
    let blanks = noted_counters(&rt, &notes, 1);
    let output = output_with(&rt, &notes, 100);
    let mut writer = BufWriter::new(rt.alloc(), output).expect(&rt, "a buffer");
    let ran = run_anew(rt.alloc(), &script_of(&rt, ENTERED), blanks, &mut writer);
    assert!(rt; ran.result.is_ok());
    let output = writer.get_ref();
    assert_eq!(rt; output.at.as_slice(), REACHED.as_slice());
}

// An output that takes `most` flushes ends the run at the line of its flush.
fn ends_at_the_flush(rt: &(impl AllocGlobal + Abort), most: usize) {
    let notes = new_notes(rt);
    let blanks = noted_counters(rt, &notes, 1);
    let mut output = output_with(rt, &notes, most);
    let ran = run_anew(rt.alloc(), &script_of(rt, ENTERED), blanks, &mut output);
    assert!(rt; matches!(&ran.result, Err(RunError::Output(_))));
    assert_eq!(rt; output.taken.as_slice(), PRINTED);
    assert_eq!(rt; notes.entries(), 2);
}

#[test]
fn failed_flush_ends_the_run(rt: HostRuntime) {
    ends_at_the_flush(&rt, 1);
}

#[test]
fn failed_flush_before_a_drain_is_told_by_the_next_one(rt: HostRuntime) {
    ends_at_the_flush(&rt, 0);
}
