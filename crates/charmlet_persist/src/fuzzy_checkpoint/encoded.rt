//! The end of a fuzzy checkpoint: its bytes in a half file.

ghost use Rattle.std.specs.Prelude.{◌≡◌, ◌++◌, IfErr, IfOk, OnOk};
ghost use Rattle.charmlet_history.specs.Kept.{core_in};
ghost use Rattle.charmlet_persist.specs.Writes.Rest.{IsSealing};
ghost use Rattle.charmlet_persist.specs.FuzzyCheckpoint.Checkpoint.{AreAllCaptured, IsRunning};
ghost use Rattle.charmlet_persist.specs.FuzzyCheckpoint.Sealing.{IsRefusal, IsWithinLimits, sealing_bytes, spell_running};

use crate::fuzzy_checkpoint::checkpoint::FuzzyCheckpoint;
use crate::fuzzy_checkpoint::entries::{append_entries, append_list, count_entries, rise};
use crate::snapshot::{append_arrays, append_clients, append_pending, count_of, fill_header};
use charmlet_history::History;
use charmlet_image::{HEADER_SIZE, Header, MAX_GENERATION, Mark};
use charmlet_model::{MAX_HALF, Refusal};
use std::alloc::Global;

/// The closed gate after an image, where a log without batches ends.
const CLOSED: u8 = 0;

impl FuzzyCheckpoint {
    /// Encodes the checkpoint as a half file after its open gate. The bytes are a header of the
    /// next generation, the image, and the closed gate of a log that has no batch yet. Each present
    /// element is captured. The header counts all events, including those that aren't durable.
    /// `Memory` if out of memory; `ImageFull` if the next generation would be past 2^40, or the
    /// file past 2^31 bytes. In any case the checkpoint is unchanged.
    pub fn encode(&mut self, alloc: Global, history: &History) -> Result<Vec<u8>, Refusal>
        requires running { IsRunning (core_in history.now) self.old }
        requires captured { AreAllCaptured (core_in history.now) self.old }
        ensures bytes { IfOk result (λ bytes. bytes.items
            ≡ sealing_bytes (core_in history.now) self.old) }
        ensures sealing { IfOk result (λ bytes. IsSealing (core_in history.now) bytes.items) }
        ensures within { IfOk result (λ bytes. IsWithinLimits (core_in history.now) self.old) }
        ensures err { IfErr result (λ refusal.
            IsRefusal (core_in history.now) self.old refusal) }
        ensures same { self.new ≡ self.old }
    {
        history.facts();
        let generation = history.generation();
        if generation >= MAX_GENERATION {
            return Err(Refusal::ImageFull);
        }
        let mut bytes = vec![in alloc; 0; HEADER_SIZE]?;
        self.append_lists(alloc, &mut bytes, history)?;
        let size = bytes.len() - HEADER_SIZE;
        bytes.push(CLOSED)?;
        // The open gate before these bytes is one byte more.
        if bytes.len() as u64 >= MAX_HALF {
            return Err(Refusal::ImageFull);
        }
        let header = Header {
            mark: Mark::Third,
            generation: generation + 1,
            events: history.event_count(),
            size: size as u32,
        };
        fill_header(alloc, &mut bytes, &header)?;
        Ok(bytes)
    }

    /// Appends the five lists of the image. `Memory` if out of memory; `ImageFull` if a list has
    /// more items than its count can say, which is past the limit of a file too.
    fn append_lists(
        &mut self,
        alloc: Global,
        out: &mut Vec<u8>,
        history: &History,
    ) -> Result<(), Refusal>
        requires running { IsRunning (core_in history.now) self.old }
        requires captured { AreAllCaptured (core_in history.now) self.old }
        ensures ok { OnOk result (out.new.items ≡ out.old.items
            ++ spell_running (core_in history.now) self.old) }
        ensures err { IfErr result (λ refusal.
            IsRefusal (core_in history.now) self.old refusal) }
        ensures same { self.new ≡ self.old }
    {
        history.facts();
        append_arrays(alloc, out, history.manifest())?;
        append_clients(out, history.clients())?;
        let messages = count_of(history.pending_count())?;
        append_pending(alloc, out, messages, history.messages())?;
        rise(&mut self.captured)?;
        let entries = count_of(count_entries(&self.captured))?;
        append_entries(out, entries, &self.captured)?;
        let deliveries = count_of(self.count as usize)?;
        append_list(out, deliveries, self.caught_up.as_slice())?;
        Ok(())
    }
}
