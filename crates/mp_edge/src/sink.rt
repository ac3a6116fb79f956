ghost use Rattle.std.specs.Prelude.{◌≡◌, ◌≢◌, ◌≤◌, List, ℕ, Option, length};
ghost use Rattle.mp_edge.specs.Causes.{Rose, counted};
ghost use Rattle.mp_edge.specs.Told.{Grows};
ghost use Rattle.mp_edge.specs.Answers.{accepted, write_failed, IsPart};

/// What a write answers.
#[derive(Clone, Copy, Debug, PartialEq, Eq)]
pub enum Put {
    /// So many bytes were taken from the front of the piece: at least one where the piece is not empty.
    Took(usize),
    /// The write failed and took no byte.
    Failed,
}

impl Put {
    // Whether the write failed.
    pub(crate) fn is_failed(self) -> bool
        ensures { result ≡ write_failed self }
    {
        match self {
            Put::Took(_) => false,
            Put::Failed => true,
        }
    }
}

/// Where a transcript or a listing is written to.
pub trait Sink {
    /// The bytes written so far, where the sink tells them.
    ghost written: { Self → Option (List ℕ) };

    /// How much went wrong outside; the count never falls, and it stops at 2^64 - 1.
    ghost faults: { Self → ℕ };

    /// How many writes answered `Failed`; the count stops at 2^64 - 1.
    ghost failures: { Self → ℕ };

    /// The sink never fails.
    ghost quiet: { Self → Type 0 };

    /// Writes some bytes from the front of a piece.
    fn write(&mut self, bytes: &[u8]) -> Put
        // The bytes that are taken.
        ensures part { IsPart result (length bytes.now) }
        ensures written { Grows (written self.old) (written self.new) (accepted result bytes.now) }

        // What goes wrong.
        ensures later { faults self.old ≤ faults self.new }
        ensures failed { result ≡ Put.Failed → Rose (faults self.old) (faults self.new) }
        ensures failures { failures self.new ≡ counted (write_failed result) (failures self.old) }
        ensures quiet { quiet self.old → quiet self.new × (faults self.new ≡ faults self.old) × (result ≢ Put.Failed) };
}
