ghost use Rattle.std.specs.Prelude.{◌≡◌, ◌≢◌, ◌↔◌, ◌≤◌, ◌<◌, ◌+◌, [], ◌++◌, length, Contains, IfOk, min, slice_index_or, take, true, Some};
ghost use Rattle.mp_edge.specs.Causes.{Rose, counted};
ghost use Rattle.mp_edge.specs.Answers.{given, given_count, read_failed, IsWithin};
ghost use Rattle.mp_edge.specs.Pieces.{IsAtByte, after, answer_of, before, joined, past_empty, without_front};

use crate::counting::is_listed;
use crate::source::{Got, Source};
use mp_base::{Bytes, Memory};
use std::alloc::Global;
use std::marker::Model;

/// A source over pieces in memory, with reads that fail on purpose.
#[derive(Drop)]
pub struct MemSource {
    pieces: Vec<Bytes>,
    at: usize,
    offset: usize,
    fail: Vec<u32>,
    reads: u64,
    failures: u64,
}

impl Model for MemSource {
    ghost use Rattle.mp_edge.specs.Memory.{SourceState};
    ghost use Rattle.mp_edge.specs.Pieces.{IsAtByte, after, before};

    ghost Value = { SourceState };

    ghost view = { λ s. record {
      pieces = after s.pieces.items s.at s.offset;
      taken = before s.pieces.items s.at s.offset;
      fail = s.fail.items;
      reads = s.reads;
      failures = s.failures;
    } };

    ghost invariant = { λ s. IsAtByte s.pieces.items s.at s.offset };
}

// Past the bytes and pieces that are finished.
#[tactic(auto, using(crate::proofs::PiecesLemmas::before_next, crate::proofs::PiecesLemmas::after_next, crate::proofs::PiecesLemmas::after_at_byte))]
fn next_place(pieces: &[Bytes], start_at: usize, start_offset: usize) -> (usize, usize)
    requires { start_offset ≤ length (slice_index_or pieces.now start_at []) }
    ensures before { before pieces.now result.0 result.1 ≡ before pieces.now start_at start_offset }
    ensures after { after pieces.now result.0 result.1 ≡ past_empty (after pieces.now start_at start_offset) }
    ensures byte { IsAtByte pieces.now result.0 result.1 }
{
    let mut at = start_at;
    let mut offset = start_offset;
    'finished: while at < pieces.len() && offset == pieces[at].get().len() {
        at += 1;
        offset = 0;
    }
    (at, offset)
}

// Copies as much of the front as there is room for.
fn copy_front(buf: &mut [u8], rest: &[u8]) -> usize
    ensures count { result ≡ min (length rest.now) (length buf.new) }
    ensures copied { take result buf.new ≡ take result rest.now }
{
    let count = rest.len().min(buf.len());
    buf[..count].copy_from_slice(&rest[..count]);
    count
}

impl MemSource {
    /// A source that gives piece after piece and fails exactly at the reads whose numbers, from 1, stand in `fail`.
    /// An empty piece is passed over, and a piece that is longer than the buffer is given in several reads.
    #[tactic(auto, using(crate::proofs::PiecesLemmas::before_start, crate::proofs::PiecesLemmas::after_start))]
    pub fn new(_alloc: Global, pieces: Vec<Bytes>, fail: Vec<u32>) -> Result<MemSource, Memory>
        ensures { IfOk result (λ s. s ≡ record {
          pieces = past_empty pieces.items;
          taken = [];
          fail = fail.items;
          reads = 0;
          failures = 0;
        }) }
    {
        let (at, offset) = next_place(&pieces, 0, 0);
        Ok(MemSource {
            pieces,
            at,
            offset,
            fail,
            reads: 0,
            failures: 0,
        })
    }
}

impl Source for MemSource {
    ghost taken = { λ s. Some s.taken };

    ghost left = { λ s. Some (joined s.pieces) };

    ghost faults = { λ s. s.failures };

    ghost failures = { λ s. s.failures };

    ghost quiet = { λ s. s.fail ≡ [] };

    fn read(&mut self, buf: &mut [u8]) -> Got
        // When it fails.
        ensures number { self.new.reads ≡ counted true self.old.reads }
        ensures listed { (result ≡ Got.Failed) ↔ Contains self.old.fail self.new.reads }
        ensures fail { self.new.fail ≡ self.old.fail }
        ensures later { self.old.failures ≤ self.new.failures }
        ensures failed { result ≡ Got.Failed → Rose self.old.failures self.new.failures }
        ensures failures { self.new.failures ≡ counted (read_failed result) self.old.failures }
        ensures quiet { self.old.fail ≡ [] → (self.new.fail ≡ []) × (self.new.failures ≡ self.old.failures) × (result ≢ Got.Failed) }

        // What it gives.
        ensures answer { result ≢ Got.Failed → result ≡ answer_of self.old.pieces (length buf.new) }
        ensures within { IsWithin result (length buf.new) }
        ensures taken { self.new.taken ≡ self.old.taken ++ given result buf.new }
        ensures left { joined self.old.pieces ≡ given result buf.new ++ joined self.new.pieces }
        ensures pieces { self.new.pieces ≡ past_empty (without_front (given_count result) self.old.pieces) }
        ensures end { result ≡ Got.End → joined self.new.pieces ≡ [] }
    {
        self.reads = self.reads.saturating_add(1);
        if is_listed(&self.fail, self.reads) {
            self.failures = self.failures.saturating_add(1);
            return Got::Failed;
        }
        if buf.is_empty() {
            return Got::Bytes(0);
        }
        if self.at >= self.pieces.len() {
            return Got::End;
        }
        let rest = &self.pieces[self.at].get()[self.offset..];
        let count = copy_front(buf, rest);
        let (at, offset) = next_place(&self.pieces, self.at, self.offset + count);
        self.at = at;
        self.offset = offset;
        Got::Bytes(count)
    }
}
