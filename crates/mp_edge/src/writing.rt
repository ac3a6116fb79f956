ghost use Rattle.std.specs.Prelude.{◌≡◌, ◌≤◌, [], IsOk, OnOk, OnErr, is_err};
ghost use Rattle.mp_edge.specs.Causes.{Rose, counted};
ghost use Rattle.mp_edge.specs.Told.{Grows, GrowsPartly};

use crate::sink::{Put, Sink};
use thiserror::Error;

/// A write failed.
#[derive(Clone, Copy, Debug, PartialEq, Eq, Error)]
#[error("a write failed")]
pub struct WriteFailed;

/// Writes all the bytes, in as many writes as it takes. It stops at the first write that fails, when a front of the
/// bytes was written. For no bytes it makes no write.
pub fn write_all<K: Sink>(sink: &mut K, bytes: &[u8]) -> Result<(), WriteFailed>
    // What was written.
    ensures ok { OnOk result (Grows (K.written sink.old) (K.written sink.new) bytes.now) }
    ensures err { OnErr result (GrowsPartly (K.written sink.old) (K.written sink.new) bytes.now) }
    ensures empty { bytes.now ≡ [] → IsOk result × (sink.new ≡ sink.old) }

    // What went wrong.
    ensures later { K.faults sink.old ≤ K.faults sink.new }
    ensures cause { OnErr result (Rose (K.faults sink.old) (K.faults sink.new)) }
    ensures failures { K.failures sink.new ≡ counted (is_err result) (K.failures sink.old) }
    ensures quiet { K.quiet sink.old → IsOk result × K.quiet sink.new × (K.faults sink.new ≡ K.faults sink.old) }
{
    let mut at = 0;
    'pieces: while at < bytes.len() {
        match sink.write(&bytes[at..]) {
            Put::Took(count) => at += count,
            Put::Failed => return Err(WriteFailed),
        }
    }
    Ok(())
}
