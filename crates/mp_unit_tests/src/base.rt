ghost use Rattle.mp_base.specs.Name.{IsWord};

use mp_base::{At, Bytes, Memory, Name, Path, Positions, TextLine, TextLines, end_last_line};
use std::alloc::Global;
use std::collections::HashMap;
use std::test::Fail;

// Whether a name is that of `MaxInt`, and what a map finds by it that has 7 by a copy of that name.
fn beside_maxint(alloc: Global, spelling: &[u8]) -> Result<(bool, Option<u8>), Fail>
    requires { IsWord spelling.now }
{
    let name = Name::new(alloc, spelling)?;
    let key = Name::new(alloc, b"MaxInt")?.copy()?;
    let is_same = key.same(&name);
    let mut places = HashMap::new(alloc);
    places.insert(key, 7u8)?;
    Ok((is_same, places.get(&name).copied()))
}

#[test]
fn names_are_spelled_in_lower_case_and_are_keys(rt: HostRuntime) -> Result<(), Fail> {
    let alloc = rt.alloc();
    assert_eq!(rt; Name::new(alloc, b"MaxInt")?.get(), b"maxint".as_slice());
    assert_eq!(rt; beside_maxint(alloc, b"maxint")?, (true, Some(7)));
    assert_eq!(rt; beside_maxint(alloc, b"maxint1")?, (false, None));
    Ok(())
}

// The path of the second `R` in a block.
fn inner(outer: &Path, alloc: Global) -> Result<Path, Memory> {
    outer.child(&Name::new(alloc, b"R")?, 2)?.copy()
}

// The path of the first `q`.
fn outer(alloc: Global) -> Result<Path, Memory> {
    Path::top(alloc)?.child(&Name::new(alloc, b"q")?, 1)
}

// How many steps a path has from which another grew, and that one.
fn lengths(alloc: Global) -> Result<(usize, usize), Memory> {
    let shorter = outer(alloc)?;
    let longer = inner(&shorter, alloc)?;
    Ok((shorter.steps().len(), longer.steps().len()))
}

#[test]
fn paths_grow_by_a_step(rt: HostRuntime) -> Result<(), Fail> {
    let alloc = rt.alloc();
    assert_eq!(rt; lengths(alloc)?, (1, 2));
    let path = inner(&outer(alloc)?, alloc)?;
    for (step, (name, nth)) in path.steps().iter().zip([("q", 1), ("r", 2)]) {
        assert_eq!(rt; (step.name.get(), step.nth), (name.as_bytes(), nth));
    }
    Ok(())
}

// What a map that has 7 by the path of the second `r` in `q` finds by that of another `r` there.
fn beside_second(alloc: Global, nth: u32) -> Result<Option<u8>, Fail> {
    let mut places = HashMap::new(alloc);
    places.insert(inner(&outer(alloc)?, alloc)?, 7u8)?;
    let path = outer(alloc)?.child(&Name::new(alloc, b"r")?, nth)?;
    Ok(places.get(&path).copied())
}

#[test]
fn paths_are_keys(rt: HostRuntime) -> Result<(), Fail> {
    assert_eq!(rt; beside_second(rt.alloc(), 2)?, Some(7));
    assert_eq!(rt; beside_second(rt.alloc(), 1)?, None);
    Ok(())
}

#[test]
fn lines_are_ended_once(rt: HostRuntime) -> Result<(), Fail> {
    let alloc = rt.alloc();
    for (text, want) in [
        ("", ""),
        ("a", "a\n"),
        ("a\n", "a\n"),
        ("\n", "\n"),
        ("a\nb", "a\nb\n"),
    ] {
        let mut bytes = Vec::from_slice(alloc, text.as_bytes())?;
        end_last_line(&mut bytes)?;
        assert_eq!(rt; bytes.as_slice(), want.as_bytes(), "{text:?}");
    }
    Ok(())
}

#[test]
fn lines_and_bytes_are_what_they_are_made_of(rt: HostRuntime) -> Result<(), Fail> {
    let alloc = rt.alloc();
    let mut lines = TextLines::new(alloc);
    lines.push(TextLine::of(alloc, b"begin")?)?;
    assert_eq!(rt; lines.get().len(), 1);
    assert_eq!(rt; Bytes::of(alloc, b"end.")?.get(), b"end.".as_slice());
    Ok(())
}

#[test]
fn places_count_lines_and_bytes_from_one(rt: HostRuntime) {
    // Byte 10 belongs to the line that it ends; a byte above 127 is one column.
    let text = b"ab\n\n\xc3\xa4z\n";
    let mut positions = Positions::new(text);
    assert_eq!(rt; positions.find(0), At { line: 1, column: 1 });
    assert_eq!(rt; positions.find(2), At { line: 1, column: 3 });
    assert_eq!(rt; positions.find(3), At { line: 2, column: 1 });
    assert_eq!(rt; positions.find(6), At { line: 3, column: 3 });
    assert_eq!(rt; positions.find(8), At { line: 4, column: 1 });
    assert_eq!(rt; positions.find(1), At { line: 1, column: 2 });
}
