ghost use Rattle.std.specs.Prelude.{◌≡◌, [], vec_len};
ghost use Rattle.std.specs.Io.KnownBytes.{Consumes, IsAtEnd};
ghost use Rattle.mp_edge.specs.Told.{Grows};
ghost use Rattle.mp_session.specs.Outside.{Failures};
ghost use Rattle.mp_cli.specs.Reading.{is_fault, HasRead};

use mp_base::SCRIPT_LIMIT;
use mp_edge::{Got, Source};

/// Why the reading of a text ended.
#[derive(Clone, Copy)]
pub(crate) enum Ending {
    /// Nothing is left.
    End,
    /// As many bytes were taken as a script may have.
    Limit,
    /// A read failed.
    Fault,
    /// Memory was wanting; all that was taken stands in the text.
    Memory,
}

/// Bytes of one read at most.
pub(crate) const BUFFER_SIZE: usize = 4_096;

/// Reads to the end, to the limit, or to a fault, and puts what comes into an empty text.
pub(crate) fn read_all<S: Source>(source: &mut S, text: &mut Vec<u8>) -> Ending
    requires { text.old.items ≡ [] }
    ensures taken { Grows (S.taken source.old) (S.taken source.new) text.new.items }
    ensures left { Consumes (S.left source.old) (S.left source.new) text.new.items }
    ensures ending { HasRead result (vec_len text.new) (S.left source.new) }

    ensures source { Failures (is_fault result) (S.faults source.old) (S.faults source.new)
        (S.failures source.old) (S.failures source.new) (S.quiet source.old) (S.quiet source.new) }
{
    let mut buffer = [0u8; BUFFER_SIZE];
    'reads: while text.len() < SCRIPT_LIMIT {
        let room = (SCRIPT_LIMIT - text.len()).min(BUFFER_SIZE);
        if text.reserve(room).is_err() {
            return Ending::Memory;
        }
        match source.read(&mut buffer[..room]) {
            Got::Bytes(count) => text.extend_from_slice(&buffer[..count]).unwrap(),
            Got::End => return Ending::End,
            Got::Failed => return Ending::Fault,
        }
    }
    Ending::Limit
}
