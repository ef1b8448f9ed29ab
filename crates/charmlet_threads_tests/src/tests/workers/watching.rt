//! A watch over threads: a test that would wait for ever ends after two minutes, and says so.

use std::process::Abort;
use std::sync::atomic::{AtomicU64, Ordering};
use std::thread;
use std::time::{Clock, Duration};

// How many looks there are, and how many milliseconds pass between two of them.
const LOOKS: u32 = 12_000;

const PAUSE: u64 = 10;

// How many threads have finished, or how far one of them has come.
#[derive(Drop)]
pub(super) struct Watch {
    done: AtomicU64,
}

impl Watch {
    pub(super) fn new() -> Watch {
        Watch {
            done: AtomicU64::new(0),
        }
    }

    // Counts one more.
    pub(super) fn note(&self) {
        self.done.fetch_add(1, Ordering::SeqCst);
    }

    // The count.
    pub(super) fn count(&self) -> u64 {
        self.done.load(Ordering::SeqCst)
    }

    // Waits until the count is at least `wanted`.
    pub(super) fn wait_for(&self, rt: &(impl Abort + Clock), wanted: u64) {
        for _ in 0..LOOKS {
            if self.count() >= wanted {
                return;
            }
            thread::sleep(rt, Duration::from_millis(PAUSE));
        }
        panic!(rt;
            "{} of {wanted} came in two minutes: the others wait for one another",
            self.count()
        )
    }
}
