ghost use Rattle.std.specs.Prelude.{◌≡◌, ◌≢◌, ◌≤◌, List, ℕ, Option, length};
ghost use Rattle.std.specs.Io.KnownBytes.{Consumes, IsAtEnd};
ghost use Rattle.mp_edge.specs.Causes.{Rose, counted};
ghost use Rattle.mp_edge.specs.Told.{Grows};
ghost use Rattle.mp_edge.specs.Answers.{given, read_failed, IsWithin};

/// What a read answers.
#[derive(Clone, Copy, Debug, PartialEq, Eq)]
pub enum Got {
    /// So many bytes stand at the front of the buffer: at least one where the buffer is not empty.
    Bytes(usize),
    /// Nothing is left to read.
    End,
    /// The read failed and gave no byte.
    Failed,
}

impl Got {
    // Whether the read failed.
    pub(crate) fn is_failed(self) -> bool
        ensures { result ≡ read_failed self }
    {
        match self {
            Got::Bytes(_) => false,
            Got::End => false,
            Got::Failed => true,
        }
    }
}

/// Where a script or a text is read from.
pub trait Source {
    /// The bytes given so far, where the source tells them.
    ghost taken: { Self → Option (List ℕ) };

    /// The bytes still to come, where the source tells them.
    ghost left: { Self → Option (List ℕ) };

    /// How much went wrong outside; the count never falls, and it stops at 2^64 - 1.
    ghost faults: { Self → ℕ };

    /// How many reads answered `Failed`; the count stops at 2^64 - 1.
    ghost failures: { Self → ℕ };

    /// The source never fails.
    ghost quiet: { Self → Type 0 };

    /// Reads some bytes into the front of the buffer.
    fn read(&mut self, buf: &mut [u8]) -> Got
        // The bytes that are given.
        ensures within { IsWithin result (length buf.new) }
        ensures taken { Grows (taken self.old) (taken self.new) (given result buf.new) }
        ensures left { Consumes (left self.old) (left self.new) (given result buf.new) }
        ensures end { result ≡ Got.End → IsAtEnd (left self.new) }

        // What goes wrong.
        ensures later { faults self.old ≤ faults self.new }
        ensures failed { result ≡ Got.Failed → Rose (faults self.old) (faults self.new) }
        ensures failures { failures self.new ≡ counted (read_failed result) (failures self.old) }
        ensures quiet { quiet self.old → quiet self.new × (faults self.new ≡ faults self.old) × (result ≢ Got.Failed) };
}
