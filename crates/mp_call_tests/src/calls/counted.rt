use mp_edge::{Got, Source};

/// A source that counts the bytes that another one gives.
#[derive(Drop)]
pub(crate) struct Counted<S: Source> {
    source: S,
    count: u64,
}

fn count_of(got: Got) -> u64 {
    match got {
        Got::Bytes(count) => count as u64,
        Got::End => 0,
        Got::Failed => 0,
    }
}

impl<S: Source> Counted<S> {
    pub(crate) fn new(source: S) -> Counted<S> {
        Counted { source, count: 0 }
    }

    /// How many bytes were taken.
    pub(crate) fn count(&self) -> u64 {
        self.count
    }
}

impl<S: Source> Source for Counted<S> {
    ghost taken = { λ c. S.taken c.source };

    ghost left = { λ c. S.left c.source };

    ghost faults = { λ c. S.faults c.source };

    ghost failures = { λ c. S.failures c.source };

    ghost quiet = { λ c. S.quiet c.source };

    fn read(&mut self, buf: &mut [u8]) -> Got {
        let got = self.source.read(buf);
        self.count = self.count.saturating_add(count_of(got));
        got
    }
}
