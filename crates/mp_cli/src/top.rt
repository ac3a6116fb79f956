ghost use Rattle.std.specs.Prelude.{◌≡◌, ◌↔◌, IsNone, Some, map, string_bytes};
ghost use Rattle.mp_edge.specs.Causes.{Rose};
ghost use Rattle.mp_session.specs.Outside.{Failures};
ghost use Rattle.mp_cli.specs.Forms.{form_of};
ghost use Rattle.mp_cli.specs.Top.{Met, Completes, read_failed_at, write_failed_at};

use crate::forms::{Form, form_of};
use crate::reading::{Ending, read_all};
use crate::scripts::serial;
use crate::status::Status;
use mp_base::end_last_line;
use mp_edge::{Sink, Source, write_all};
use mp_session::list_transcript;
use std::alloc::Global;

// Writes the listing of the text that the source gives.
fn list<S: Source, K: Sink>(alloc: Global, source: &mut S, sink: &mut K) -> Status
    ensures met { Met (Some Form.List) result (S.taken source.old) (S.taken source.new) (S.left source.old) (S.left source.new)
        (K.written sink.old) (K.written sink.new) }
    ensures source { Failures (read_failed_at result) (S.faults source.old) (S.faults source.new)
        (S.failures source.old) (S.failures source.new) (S.quiet source.old) (S.quiet source.new) }
    ensures sink { Failures (write_failed_at result) (K.faults sink.old) (K.faults sink.new)
        (K.failures sink.old) (K.failures sink.new) (K.quiet sink.old) (K.quiet sink.new) }
{
    let mut text = Vec::new(alloc);
    match read_all(source, &mut text) {
        Ending::Fault => return Status::ReadFault,
        Ending::Memory => return Status::Memory,
        Ending::Limit => return Status::ScriptLimit,
        Ending::End => {}
    }
    let Ok(()) = end_last_line(&mut text) else {
        return Status::Memory;
    };
    let Ok(bytes) = list_transcript(alloc, text.as_slice()) else {
        return Status::Memory;
    };
    let Ok(()) = write_all(sink, bytes.get()) else {
        return Status::WriteFault;
    };
    Status::Done
}

/// Does what the words ask for, over a source and a sink, and waits for nobody.
///
/// `words` are those after the program's name. The form `list` reads a text to its end and writes its listing; the
/// form `serial` reads a script and writes the reply to each command as soon as its last line is read, up to the first
/// `quit`. Other words are of no form: then nothing is read or written.
pub fn run_plain<S: Source, K: Sink>(
    alloc: Global,
    words: &[String],
    source: &mut S,
    sink: &mut K,
) -> Status
    // What was taken and what was written, form by form and status by status.
    ensures met { Met (form_of (map string_bytes words.now)) result (S.taken source.old) (S.taken source.new) (S.left source.old) (S.left source.new)
        (K.written sink.old) (K.written sink.new) }
    ensures complete { ¬ Rose (S.faults source.old) (S.faults source.new) → ¬ Rose (K.faults sink.old) (K.faults sink.new)
        → Completes (form_of (map string_bytes words.now)) result (S.left source.old) (K.written sink.old) (K.written sink.new) }

    // When the words are of no form.
    ensures words { result ≡ Status.Words ↔ IsNone (form_of (map string_bytes words.now)) }
    ensures untouched { result ≡ Status.Words → (source.new ≡ source.old) × (sink.new ≡ sink.old) }

    // What went wrong.
    ensures source { Failures (read_failed_at result) (S.faults source.old) (S.faults source.new)
        (S.failures source.old) (S.failures source.new) (S.quiet source.old) (S.quiet source.new) }
    ensures sink { Failures (write_failed_at result) (K.faults sink.old) (K.faults sink.new)
        (K.failures sink.old) (K.failures sink.new) (K.quiet sink.old) (K.quiet sink.new) }
{
    match form_of(words) {
        None => Status::Words,
        Some(Form::List) => list(alloc, source, sink),
        Some(Form::Serial) => serial(alloc, source, sink),
    }
}
