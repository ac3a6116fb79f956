// That the calls succeed with ample memory, and texts and refusals that were worked out by hand.
ghost use Rattle.std.specs.Prelude.{◌≡◌, ◌==◌, ◌≤◌, IfOk, filter, length, not};
ghost use Rattle.mp_text.specs.Edits.{new_lines};

use mp_base::{At, TextLine, TextLines, Version};
use mp_text::{Edit, TextError, Texts};
use std::alloc::{AllocError, Global};
use std::test::Fail;

// An edit that brings the lines `x` and `y`, or the bytes `xy`, or long lines: `count` lines of `len` bytes and one of
// `last` bytes.
#[derive(Clone, Copy)]
enum Change {
    // Inserts `abc`, an empty line and `de` at the front.
    Begin,
    Insert(u32),
    Delete(u32, u32),
    Replace(u32, u32),
    Sub(u32, u32, u32),
    Long {
        after: u32,
        count: u32,
        len: usize,
        last: usize,
    },
}

fn without_line_ends(alloc: Global, bytes: &[u8]) -> Result<Vec<u8>, AllocError>
    ensures { IfOk result (λ made. made.items ≡ filter (λ byte. not (byte == 10)) bytes.now) }
{
    bytes
        .iter()
        .copied()
        .filter(|byte| *byte != 10)
        .collect(alloc)
}

fn line(alloc: Global, bytes: &[u8]) -> Result<TextLine, AllocError> {
    let items = without_line_ends(alloc, bytes)?;
    Ok(TextLine::from_vec(items))
}

fn lines(alloc: Global, text: &str) -> Result<TextLines, AllocError> {
    let mut out = Vec::new(alloc);
    for piece in text.lines() {
        out.push(line(alloc, piece.as_bytes())?)?;
    }
    Ok(TextLines::from_vec(out))
}

fn long_line(alloc: Global, len: usize) -> Result<TextLine, AllocError> {
    let bytes = vec![in alloc; b'x'; len]?;
    line(alloc, &bytes)
}

fn long_lines(alloc: Global, count: u32, len: usize, last: usize) -> Result<TextLines, AllocError> {
    let mut out = Vec::new(alloc);
    for _ in 0..count {
        out.push(long_line(alloc, len)?)?;
    }
    out.push(long_line(alloc, last)?)?;
    Ok(TextLines::from_vec(out))
}

fn edit(alloc: Global, change: Change) -> Result<Edit, AllocError> {
    match change {
        Change::Begin => {
            let lines = lines(alloc, "abc\n\nde\n")?;
            Ok(Edit::Insert { after: 0, lines })
        }
        Change::Insert(after) => {
            let lines = lines(alloc, "x\ny\n")?;
            Ok(Edit::Insert { after, lines })
        }
        Change::Delete(first, last) => Ok(Edit::Delete { first, last }),
        Change::Replace(first, last) => {
            let lines = lines(alloc, "x\ny\n")?;
            Ok(Edit::Replace { first, last, lines })
        }
        Change::Sub(number, column, count) => Ok(Edit::Sub {
            line: number,
            column,
            count,
            bytes: line(alloc, b"xy")?,
        }),
        Change::Long {
            after,
            count,
            len,
            last,
        } => {
            let lines = long_lines(alloc, count, len, last)?;
            Ok(Edit::Insert { after, lines })
        }
    }
}

// At least as many lines as the edit brings.
fn brought(edit: &Edit) -> usize
    ensures { length (new_lines edit.now) ≤ result }
{
    match edit {
        Edit::Insert { lines, .. } => lines.get().len(),
        Edit::Replace { lines, .. } => lines.get().len(),
        Edit::Delete { .. } => 0,
        Edit::Sub { .. } => 1,
    }
}

fn apply(
    alloc: Global,
    texts: &mut Texts,
    base: u32,
    change: Change,
) -> Result<Version, TextError> {
    let Ok(edit) = edit(alloc, change) else {
        return Err(TextError::Memory);
    };
    if brought(&edit) > 1000 {
        return Err(TextError::Memory);
    }
    texts.apply(Version(base), edit)
}

fn place(texts: &Texts, v: u32, byte: u32) -> Option<At> {
    let v = Version(v);
    let Ok(bytes) = texts.bytes(v) else {
        return None;
    };
    if byte as usize > bytes.get().len() {
        return None;
    }
    Some(texts.line_of(v, byte))
}

fn count(texts: &Texts, v: u32) -> Option<u32> {
    let v = Version(v);
    let Ok(_) = texts.bytes(v) else {
        return None;
    };
    Some(texts.line_count(v))
}

// Whether the version has this text.
fn is_text(texts: &Texts, v: u32, want: &str) -> Result<bool, TextError> {
    Ok(texts.bytes(Version(v))?.get() == want.as_bytes())
}

// Version 1, and version 2 of three lines: `abc`, an empty one, `de`.
fn three_lines(alloc: Global) -> Result<Texts, Fail> {
    let mut texts = Texts::new(alloc)?;
    apply(alloc, &mut texts, 1, Change::Begin)?;
    Ok(texts)
}

#[test]
fn edits_make_new_texts(rt: HostRuntime) -> Result<(), Fail> {
    let alloc = rt.alloc();
    let mut texts = three_lines(alloc)?;
    assert_eq!(rt; texts.current(), Version(2));
    for (made, change, want) in [
        (3, Change::Insert(0), "x\ny\nabc\n\nde\n"),
        (4, Change::Insert(1), "abc\nx\ny\n\nde\n"),
        (5, Change::Insert(3), "abc\n\nde\nx\ny\n"),
        (6, Change::Delete(1, 1), "\nde\n"),
        (7, Change::Delete(2, 3), "abc\n"),
        (8, Change::Delete(1, 3), ""),
        (9, Change::Replace(1, 1), "x\ny\n\nde\n"),
        (10, Change::Replace(2, 3), "abc\nx\ny\n"),
        (11, Change::Sub(1, 1, 0), "xyabc\n\nde\n"),
        (12, Change::Sub(1, 2, 1), "axyc\n\nde\n"),
        (13, Change::Sub(1, 4, 0), "abcxy\n\nde\n"),
        (14, Change::Sub(2, 1, 0), "abc\nxy\nde\n"),
        (15, Change::Sub(3, 1, 2), "abc\n\nxy\n"),
    ] {
        assert_eq!(rt; apply(alloc, &mut texts, 2, change), Ok(Version(made)));
        assert_eq!(rt; texts.current(), Version(made));
        assert!(rt; is_text(&texts, made, want)?, "version {made}");
        assert!(rt; is_text(&texts, 2, "abc\n\nde\n")?);
    }
    Ok(())
}

#[test]
fn a_refusal_of_range_tells_the_last_value(rt: HostRuntime) -> Result<(), Fail> {
    let alloc = rt.alloc();
    let mut texts = three_lines(alloc)?;
    // In a substitution the line comes before the column, and the column before the count.
    for (base, change, last) in [
        (2, Change::Insert(4), 3),
        (2, Change::Delete(0, 1), 3),
        (2, Change::Delete(2, 1), 3),
        (2, Change::Delete(1, 4), 3),
        (2, Change::Replace(0, 0), 3),
        (2, Change::Replace(3, 2), 3),
        (2, Change::Replace(4, 4), 3),
        (2, Change::Sub(0, 0, 9), 3),
        (2, Change::Sub(4, 0, 9), 3),
        (2, Change::Sub(1, 0, 9), 4),
        (2, Change::Sub(1, 5, 9), 4),
        (2, Change::Sub(2, 2, 0), 1),
        (2, Change::Sub(1, 2, 3), 2),
        (2, Change::Sub(1, 4, 1), 0),
        (1, Change::Delete(0, 0), 0),
    ] {
        assert_eq!(rt;
            apply(alloc, &mut texts, base, change),
            Err(TextError::Range { last })
        );
    }
    assert_eq!(rt; texts.current(), Version(2));
    Ok(())
}

#[test]
fn the_first_refusal_is_given(rt: HostRuntime) -> Result<(), Fail> {
    let alloc = rt.alloc();
    let mut texts = three_lines(alloc)?;
    let long = |after, count, len, last| Change::Long {
        after,
        count,
        len,
        last,
    };
    // No such version and out of range; out of range and a long line; a long line and a long text; a long text.
    for (base, change, want) in [
        (3, Change::Delete(5, 5), TextError::NoVersion),
        (0, Change::Delete(5, 5), TextError::NoVersion),
        (2, long(4, 0, 0, 4097), TextError::Range { last: 3 }),
        (2, long(1, 64, 4096, 4097), TextError::LineLong { line: 66 }),
        (
            1,
            long(0, 63, 4095, 4096),
            TextError::TooLong { bytes: 262_145 },
        ),
    ] {
        assert_eq!(rt; apply(alloc, &mut texts, base, change), Err(want));
    }
    assert_eq!(rt; texts.current(), Version(2));
    Ok(())
}

#[test]
fn versions_that_are_full_are_told_first(rt: HostRuntime) -> Result<(), Fail> {
    let alloc = rt.alloc();
    let mut texts = three_lines(alloc)?;
    assert_eq!(rt; texts.back(Version(3)), Err(TextError::NoVersion));
    for made in 3..4097 {
        assert_eq!(rt; texts.back(Version(1)), Ok(Version(made)));
    }
    // The versions are full, and there is no such version.
    for base in [0, 4097] {
        let change = Change::Delete(1, 1);
        assert_eq!(rt;
            apply(alloc, &mut texts, base, change),
            Err(TextError::VersionsFull)
        );
        assert_eq!(rt; texts.back(Version(base)), Err(TextError::VersionsFull));
    }
    assert_eq!(rt; texts.current(), Version(4096));
    Ok(())
}

#[test]
fn the_greatest_text_is_a_version(rt: HostRuntime) -> Result<(), Fail> {
    let alloc = rt.alloc();
    let mut texts = Texts::new(alloc)?;
    for (made, count_of_lines, change) in [
        (
            2,
            64,
            Change::Long {
                after: 0,
                count: 63,
                len: 4095,
                last: 4095,
            },
        ),
        (3, 63, Change::Delete(64, 64)),
        (
            4,
            64,
            Change::Long {
                after: 63,
                count: 0,
                len: 0,
                last: 4095,
            },
        ),
    ] {
        assert_eq!(rt;
            apply(alloc, &mut texts, made - 1, change),
            Ok(Version(made))
        );
        assert_eq!(rt; count(&texts, made), Some(count_of_lines));
    }
    Ok(())
}

#[test]
fn versions_are_shown_and_gone_back_to(rt: HostRuntime) -> Result<(), Fail> {
    let alloc = rt.alloc();
    let mut texts = three_lines(alloc)?;
    assert_eq!(rt;
        apply(alloc, &mut texts, 2, Change::Delete(1, 2)),
        Ok(Version(3))
    );
    assert_eq!(rt; texts.back(Version(2)), Ok(Version(4)));
    assert!(rt; is_text(&texts, 3, "de\n")?);
    assert!(rt; is_text(&texts, 4, "abc\n\nde\n")?);
    assert_eq!(rt; count(&texts, 3), Some(1));
    Ok(())
}

#[test]
fn lines_are_counted_and_places_found(rt: HostRuntime) -> Result<(), Fail> {
    let texts = three_lines(rt.alloc())?;
    for (v, want) in [(0, None), (1, Some(0)), (2, Some(3)), (3, None)] {
        assert_eq!(rt; count(&texts, v), want, "version {v}");
    }
    for (v, byte, line, column) in [
        (1, 0, 1, 1),
        (2, 0, 1, 1),
        (2, 3, 1, 4),
        (2, 4, 2, 1),
        (2, 5, 3, 1),
        (2, 7, 3, 3),
        (2, 8, 4, 1),
    ] {
        assert_eq!(rt;
            place(&texts, v, byte),
            Some(At { line, column }),
            "byte {byte}"
        );
    }
    Ok(())
}
