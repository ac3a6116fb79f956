mod counted;
mod faults;
mod grammar_limits;
mod limits;
mod replies;
mod scripts;
mod syntax;
mod texts;

use counted::Counted;
use faults::Fault;
use limits::Long;
use mp_base::{Bytes, Memory};
use mp_cli::{Status, run_plain};
use mp_edge::{MemSink, MemSource};
use std::alloc::Global;
use std::process::Abort;
use std::test::Fail;

// How a call ended, what it wrote, and how many bytes it took.
#[derive(Drop)]
struct Outcome {
    status: Status,
    written: Bytes,
    taken: u64,
}

// A call with these words over these pieces. The reads and writes of these numbers fail.
fn called(
    alloc: Global,
    words: &str,
    pieces: Vec<Bytes>,
    fail_reads: &[u32],
    fail_writes: &[u32],
) -> Result<Outcome, Fail> {
    let source = MemSource::new(alloc, pieces, Vec::from_slice(alloc, fail_reads)?)?;
    let mut source = Counted::new(source);
    let mut sink = MemSink::new(alloc, Vec::from_slice(alloc, fail_writes)?)?;
    let mut owned = Vec::new(alloc);
    for word in words.split_whitespace() {
        owned.push(String::from_str(alloc, word)?)?;
    }
    let status = run_plain(alloc, owned.as_slice(), &mut source, &mut sink);
    let written = Bytes::of(alloc, sink.bytes().ok_or(Memory)?)?;
    Ok(Outcome {
        status,
        written,
        taken: source.count(),
    })
}

// A call with these words over these bytes in one piece.
fn answered(alloc: Global, words: &str, bytes: &[u8]) -> Result<Outcome, Fail> {
    let mut pieces = Vec::new(alloc);
    pieces.push(Bytes::of(alloc, bytes)?)?;
    called(alloc, words, pieces, &[], &[])
}

/// A text or a script, and what is written for it.
pub(crate) type Row = (&'static [u8], &'static str);

fn are_answered(
    rt: &impl Abort,
    alloc: Global,
    words: &str,
    rows: &[(&[u8], &str)],
) -> Result<(), Fail> {
    for (bytes, written) in rows {
        let called = answered(alloc, words, bytes)?;
        assert_eq!(rt; called.status, Status::Done);
        assert_eq!(rt; called.written.get(), written.as_bytes(), "{bytes:?}");
    }
    Ok(())
}

#[test]
fn small_texts_have_their_listings(rt: HostRuntime) -> Result<(), Fail> {
    for table in texts::TABLES {
        are_answered(&rt, rt.alloc(), "list", table)?;
    }
    Ok(())
}

#[test]
fn the_first_syntax_error_is_listed_alone(rt: HostRuntime) -> Result<(), Fail> {
    for table in syntax::TABLES {
        are_answered(&rt, rt.alloc(), "list", table)?;
    }
    Ok(())
}

#[test]
fn small_scripts_have_their_transcripts(rt: HostRuntime) -> Result<(), Fail> {
    for table in scripts::TABLES {
        are_answered(&rt, rt.alloc(), "serial", table)?;
    }
    Ok(())
}

#[test]
fn commands_have_their_replies(rt: HostRuntime) -> Result<(), Fail> {
    let alloc = rt.alloc();
    let mut script = Vec::new(alloc);
    let mut replies = Vec::new(alloc);
    for (command, reply) in replies::REPLIES {
        script.extend_from_slice(command.as_bytes())?;
        replies.extend_from_slice(reply.as_bytes())?;
        // all replies to the commands so far
        let called = answered(alloc, "serial", script.as_slice())?;
        assert_eq!(rt; called.status, Status::Done);
        assert_eq!(rt; called.written.get(), replies.as_slice(), "{command:?}");
    }
    Ok(())
}

// Each piece so many times, one behind the other.
fn repeated(alloc: Global, pieces: &[(usize, &str)]) -> Result<Vec<u8>, Memory> {
    let mut text = Vec::new(alloc);
    for (count, piece) in pieces {
        for _ in 0..*count {
            text.extend_from_slice(piece.as_bytes())?;
        }
    }
    Ok(text)
}

#[test]
fn texts_past_a_limit_of_the_grammar_are_listed(rt: HostRuntime) -> Result<(), Fail> {
    let alloc = rt.alloc();
    for (pieces, written) in grammar_limits::LIMITS {
        let text = repeated(alloc, pieces)?;
        are_answered(&rt, alloc, "list", &[(text.as_slice(), *written)])?;
    }
    Ok(())
}

// Adds such a row's bytes.
fn add_long(
    out: &mut Vec<u8>,
    front: &[u8],
    lines: &[(usize, usize)],
    back: &[u8],
) -> Result<(), Fail> {
    out.extend_from_slice(front)?;
    for (number, (count, len)) in lines.iter().enumerate() {
        for line in 0..*count {
            if number > 0 || line > 0 {
                out.push(b'\n')?;
            }
            for _ in 0..*len {
                out.push(b' ')?;
            }
        }
    }
    out.extend_from_slice(back)?;
    Ok(())
}

fn have_limits(rt: &impl Abort, alloc: Global, words: &str, rows: &[Long]) -> Result<(), Fail> {
    for (front, lines, back, written) in rows {
        let mut bytes = Vec::new(alloc);
        add_long(&mut bytes, front, lines, back)?;
        let called = answered(alloc, words, bytes.as_slice())?;
        assert_eq!(rt; called.status, Status::Done);
        assert_eq!(rt; called.written.get(), written.as_bytes(), "{front:?}");
    }
    Ok(())
}

#[test]
fn texts_and_lines_have_limits(rt: HostRuntime) -> Result<(), Fail> {
    have_limits(&rt, rt.alloc(), "list", limits::TEXTS)?;
    have_limits(&rt, rt.alloc(), "serial", limits::SCRIPTS)
}

#[test]
fn refusals_come_in_order(rt: HostRuntime) -> Result<(), Fail> {
    have_limits(&rt, rt.alloc(), "serial", limits::ORDER)
}

#[test]
fn versions_that_are_full_are_told_first(rt: HostRuntime) -> Result<(), Fail> {
    let alloc = rt.alloc();
    for (front, lines, back, written) in limits::FULL_ORDER {
        let mut script = Vec::new(alloc);
        for _ in 1..4096 {
            script.extend_from_slice(b"back 1\n")?;
        }
        add_long(&mut script, front, lines, back)?;
        let called = answered(alloc, "serial", script.as_slice())?;
        let mut end = Vec::from_slice(alloc, b"version 4095\nversion 4096\n")?;
        end.extend_from_slice(written.as_bytes())?;
        assert!(rt; called.written.get().ends_with(end.as_slice()));
    }
    Ok(())
}

#[test]
fn calls_end_at_67108864_bytes(rt: HostRuntime) -> Result<(), Fail> {
    let alloc = rt.alloc();
    for (words, len, status, written) in limits::SPACES {
        let mut pieces = Vec::new(alloc);
        pieces.push(Bytes::from_vec(vec![in alloc; b' '; *len]?))?;
        let called = called(alloc, words, pieces, &[], &[])?;
        assert_eq!(rt; called.status, *status);
        assert_eq!(rt; called.written.get(), written.as_bytes());
    }
    Ok(())
}

#[test]
fn words_of_no_form_read_and_write_nothing(rt: HostRuntime) -> Result<(), Fail> {
    let alloc = rt.alloc();
    for words in [
        "",
        "list x",
        "serial list",
        "session 17",
        "List",
        "serials",
        "--help",
    ] {
        let mut pieces = Vec::new(alloc);
        pieces.push(Bytes::of(alloc, b"text\n")?)?;
        let called = called(alloc, words, pieces, &[1], &[1])?;
        assert_eq!(rt; called.status.number(), 1);
        assert_eq!(rt; called.taken, 0);
        assert_eq!(rt; called.written.get(), b"".as_slice());
    }
    Ok(())
}

fn are_met(
    rt: &impl Abort,
    alloc: Global,
    words: &str,
    pieces: &[&str],
    faults: &[Fault],
) -> Result<(), Fail> {
    for (reads, writes, status, written, taken) in faults {
        let mut given = Vec::new(alloc);
        for piece in pieces {
            given.push(Bytes::of(alloc, piece.as_bytes())?)?;
        }
        let called = called(alloc, words, given, reads, writes)?;
        assert_eq!(rt; called.status, *status);
        assert_eq!(rt; called.written.get(), written.as_bytes());
        assert_eq!(rt; called.taken, *taken);
    }
    Ok(())
}

#[test]
fn a_failed_read_or_write_ends_the_call(rt: HostRuntime) -> Result<(), Fail> {
    let alloc = rt.alloc();
    are_met(&rt, alloc, "list", faults::TEXT, faults::TEXT_FAULTS)?;
    are_met(&rt, alloc, "serial", faults::SCRIPT, faults::SCRIPT_FAULTS)?;
    are_met(&rt, alloc, "serial", faults::FRONT, faults::FRONT_FAULTS)
}

// The script that comes byte by byte.
fn by_bytes(alloc: Global, fail_reads: &[u32], fail_writes: &[u32]) -> Result<Outcome, Fail> {
    let mut pieces = Vec::new(alloc);
    for byte in faults::BYTES {
        pieces.push(Bytes::of(alloc, &[*byte])?)?;
    }
    called(alloc, "serial", pieces, fail_reads, fail_writes)
}

#[test]
fn a_reply_is_written_before_the_next_byte_is_read(rt: HostRuntime) -> Result<(), Fail> {
    let alloc = rt.alloc();
    let rows = faults::BYTES_READS;
    for i in 1..rows.len() {
        for read in rows[i - 1].0..rows[i].0 {
            let called = by_bytes(alloc, &[read], &[])?;
            assert_eq!(rt; called.status, rows[i - 1].1);
            assert_eq!(rt; called.written.get(), rows[i - 1].2.as_bytes());
            // the bytes before the read that failed
            assert_eq!(rt; called.taken.saturating_add(1), u64::from(read));
        }
    }
    for (write, status, written, taken) in faults::BYTES_WRITES {
        let called = by_bytes(alloc, &[], &[*write])?;
        assert_eq!(rt; called.status, *status);
        assert_eq!(rt; called.written.get(), written.as_bytes());
        assert_eq!(rt; called.taken, *taken);
    }
    Ok(())
}

#[test]
fn a_read_gives_at_most_4096_bytes(rt: HostRuntime) -> Result<(), Fail> {
    let alloc = rt.alloc();
    let mut script = Vec::new(alloc);
    add_long(&mut script, b"quit\n", &[(3, 4096)], b"")?;
    let called = answered(alloc, "serial", script.as_slice())?;
    assert_eq!(rt; called.status, Status::Done);
    assert_eq!(rt; called.taken, 4096);
    Ok(())
}

// A script of 60 bytes.
const SCRIPT: &[u8] = b"insert 0 1\nprogram p; begin end.\nlist 2\nback 1\ntext 1\nquit\nf";

/// From so many bytes on, up to the next row's, the front of the script has this transcript.
const FRONTS: &[(usize, &str)] = &[
    // `i` to `insert 0 `
    (1, "? 20 bad command\n"),
    // the line that it takes does not come
    (10, "? 25 script ended\n"),
    // `p`: a last line counts without its line end
    (12, "version 2\n"),
    // `l` to `lis`
    (34, "version 2\n? 20 bad command\n"),
    // `list` to `list 2`
    (37, "version 2\naccepted\n"),
    // `b` to `back `
    (41, "version 2\naccepted\n? 20 bad command\n"),
    (46, "version 2\naccepted\nversion 3\n"),
    // `t` to `tex`
    (48, "version 2\naccepted\nversion 3\n? 20 bad command\n"),
    // `text`, of the current version
    (51, "version 2\naccepted\nversion 3\nversion 3, 0 lines\n"),
    // `text 1`
    (53, "version 2\naccepted\nversion 3\nversion 1, 0 lines\n"),
    // `q` to `qui`
    (
        55,
        "version 2\naccepted\nversion 3\nversion 1, 0 lines\n? 20 bad command\n",
    ),
    // `quit`, and all that follows
    (58, "version 2\naccepted\nversion 3\nversion 1, 0 lines\n"),
    (61, ""),
];

#[test]
fn each_front_of_a_script_is_answered(rt: HostRuntime) -> Result<(), Fail> {
    let alloc = rt.alloc();
    let rows = FRONTS;
    for i in 1..rows.len() {
        for len in rows[i - 1].0..rows[i].0 {
            let front = SCRIPT.get(..len).ok_or(Memory)?;
            let called = answered(alloc, "serial", front)?;
            assert_eq!(rt; called.status, Status::Done);
            assert_eq!(rt; called.written.get(), rows[i - 1].1.as_bytes(), "{len}");
        }
    }
    Ok(())
}
