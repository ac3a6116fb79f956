ghost use Rattle.std.specs.Prelude.{◌≡◌, ◌≢◌, ◌↔◌, ◌≤◌, [], length, Contains, IfOk, Some, true};
ghost use Rattle.std.specs.Option.{option_map};
ghost use Rattle.mp_edge.specs.Causes.{Rose, counted};
ghost use Rattle.mp_edge.specs.Told.{Grows};
ghost use Rattle.mp_edge.specs.Answers.{accepted, write_failed, IsPart};

use crate::counting::is_listed;
use crate::sink::{Put, Sink};
use mp_base::Memory;
use std::alloc::Global;
use std::marker::Model;

/// A sink that keeps its bytes in memory, with writes that fail on purpose. Where memory for its copy is refused it
/// still takes the bytes, and tells nothing from then on.
#[derive(Drop)]
pub struct MemSink {
    bytes: Vec<u8>,
    complete: bool,
    fail: Vec<u32>,
    writes: u64,
    failures: u64,
}

impl Model for MemSink {
    ghost use Rattle.std.specs.Prelude.{Some, None, if◌then◌else◌};
    ghost use Rattle.mp_edge.specs.Memory.{SinkState};

    ghost Value = { SinkState };

    ghost view = { λ s. record {
      written = (if s.complete then Some s.bytes.items else None);
      fail = s.fail.items;
      writes = s.writes;
      failures = s.failures;
    } };
}

impl MemSink {
    /// A sink that takes each piece whole and fails exactly at the writes whose numbers, from 1, stand in `fail`.
    pub fn new(alloc: Global, fail: Vec<u32>) -> Result<MemSink, Memory>
        ensures { IfOk result (λ s. s ≡ record { written = Some []; fail = fail.items; writes = 0; failures = 0 }) }
    {
        Ok(MemSink {
            bytes: Vec::new(alloc),
            complete: true,
            fail,
            writes: 0,
            failures: 0,
        })
    }

    /// The bytes written, where memory for all of them was found.
    pub fn bytes(&self) -> Option<&[u8]>
        ensures { option_map (λ bytes. bytes.now) result ≡ self.now.written }
    {
        if self.complete {
            Some(self.bytes.as_slice())
        } else {
            None
        }
    }
}

impl Sink for MemSink {
    ghost written = { λ s. s.written };

    ghost faults = { λ s. s.failures };

    ghost failures = { λ s. s.failures };

    ghost quiet = { λ s. s.fail ≡ [] };

    fn write(&mut self, bytes: &[u8]) -> Put
        // When it fails.
        ensures number { self.new.writes ≡ counted true self.old.writes }
        ensures listed { (result ≡ Put.Failed) ↔ Contains self.old.fail self.new.writes }
        ensures fail { self.new.fail ≡ self.old.fail }
        ensures later { self.old.failures ≤ self.new.failures }
        ensures failed { result ≡ Put.Failed → Rose self.old.failures self.new.failures }
        ensures failures { self.new.failures ≡ counted (write_failed result) self.old.failures }
        ensures quiet { self.old.fail ≡ [] → (self.new.fail ≡ []) × (self.new.failures ≡ self.old.failures) × (result ≢ Put.Failed) }

        // What it takes.
        ensures part { IsPart result (length bytes.now) }
        ensures whole { result ≢ Put.Failed → result ≡ Put.Took (length bytes.now) }
        ensures written { Grows self.old.written self.new.written (accepted result bytes.now) }
    {
        self.writes = self.writes.saturating_add(1);
        if is_listed(&self.fail, self.writes) {
            self.failures = self.failures.saturating_add(1);
            return Put::Failed;
        }
        if self.complete && self.bytes.extend_from_slice(bytes).is_err() {
            self.complete = false;
        }
        Put::Took(bytes.len())
    }
}
