use mp_ast::SharedTree;
use mp_base::{Memory, TEXT_LIMIT};
use mp_lex::lex;
use mp_parse::{ParseError, parse};
use std::alloc::Global;
use std::test::Fail;

// What two texts differ in, the two, and whether the own trees of their programs' blocks are the same.
type Row = (&'static str, &'static str, &'static str, bool);

const PROGRAMS: [Row; 21] = [
    (
        "nothing",
        "program p; begin end.",
        "program p; begin end.",
        true,
    ),
    (
        "layout",
        "program p; begin q(a + 1) end.",
        "program p;{ a }begin\nq ( a+1 )end.",
        true,
    ),
    (
        "nothing, each part",
        "program p(f); label 1; const c = 'a'; type t = set of char; var x: t; begin 1: x := [c] end.",
        "program p(f); label 1; const c = 'a'; type t = set of char; var x: t; begin 1: x := [c] end.",
        true,
    ),
    (
        "the program's name",
        "program p; begin end.",
        "program q; begin end.",
        false,
    ),
    (
        "a program parameter",
        "program p(f); begin end.",
        "program p(f, g); begin end.",
        false,
    ),
    (
        "a name",
        "program p; begin q(a + 1) end.",
        "program p; begin q(b + 1) end.",
        false,
    ),
    (
        "an operator",
        "program p; begin q(a + 1) end.",
        "program p; begin q(a - 1) end.",
        false,
    ),
    (
        "the order of two operands",
        "program p; begin q(a + b) end.",
        "program p; begin q(b + a) end.",
        false,
    ),
    (
        "a number",
        "program p; begin q(a + 1) end.",
        "program p; begin q(a + 2) end.",
        false,
    ),
    (
        "a sign",
        "program p; const c = +a; begin end.",
        "program p; const c = -a; begin end.",
        false,
    ),
    (
        "a string's last character",
        "program p; const c = 'ab'; begin end.",
        "program p; const c = 'ac'; begin end.",
        false,
    ),
    (
        "a label of the label part",
        "program p; label 1, 2; begin end.",
        "program p; label 1, 3; begin end.",
        false,
    ),
    (
        "a statement's label",
        "program p; label 1; begin 1: end.",
        "program p; label 1; begin 2: end.",
        false,
    ),
    (
        "parentheses alone",
        "program p; begin q(a) end.",
        "program p; begin q((a)) end.",
        false,
    ),
    (
        "the ordinals alone",
        "program p; type r = record a: char; end; s = record b: char end; begin end.",
        "program p; type r = record a: char end; s = record b: char; end; begin end.",
        false,
    ),
    (
        "the number of tokens alone",
        "program p; type r = record a: char; end; begin end.",
        "program p; type r = record a: char end; begin end.",
        false,
    ),
    (
        "an empty statement at the end",
        "program p; begin q end.",
        "program p; begin q; end.",
        false,
    ),
    (
        "the way of a loop",
        "program p; begin for i := 1 to 2 do q end.",
        "program p; begin for i := 1 downto 2 do q end.",
        false,
    ),
    (
        "a procedure's name",
        "program p; procedure q; begin end; begin end.",
        "program p; procedure r; begin end; begin end.",
        false,
    ),
    (
        "a block in place of a directive",
        "program p; procedure q; forward; begin end.",
        "program p; procedure q; begin end; begin end.",
        false,
    ),
    (
        "a block inside alone",
        "program p; procedure q; begin end; begin q end.",
        "program p; procedure q; begin r end; begin q end.",
        true,
    ),
];

// The tree of a text, where it has one.
fn tree_of(alloc: Global, text: &str) -> Result<Option<SharedTree>, Memory> {
    if text.len() > TEXT_LIMIT {
        return Ok(None);
    }
    let lexed = lex(alloc, text.as_bytes())?;
    if !lexed.errors.get().is_empty() || lexed.tokens.get().len() > TEXT_LIMIT {
        return Ok(None);
    }
    match parse(alloc, &lexed) {
        Ok(tree) => Ok(Some(tree)),
        Err(ParseError::Syntax { .. }) => Ok(None),
        Err(ParseError::Memory) => Err(Memory),
    }
}

// Whether the own trees of two texts' programs are the same, each way round; None where a text has no tree.
fn are_same(alloc: Global, text: &str, other: &str) -> Result<Option<(bool, bool)>, Memory> {
    let (Some(tree), Some(other)) = (tree_of(alloc, text)?, tree_of(alloc, other)?) else {
        return Ok(None);
    };
    let there = tree.own().same(other.own());
    let back = other.own().same(tree.own());
    Ok(Some((there, back)))
}

// Whether the own trees of the first blocks in two texts' programs are the same; None where there is no such block.
fn are_first_blocks_same(alloc: Global, text: &str, other: &str) -> Result<Option<bool>, Memory> {
    let (Some(tree), Some(other)) = (tree_of(alloc, text)?, tree_of(alloc, other)?) else {
        return Ok(None);
    };
    let (Some(block), Some(other)) = (tree.inside().first(), other.inside().first()) else {
        return Ok(None);
    };
    Ok(Some(block.own().same(other.own())))
}

// Whether the own tree of a text's program is that of its copy; None where the text has no tree.
fn is_its_copy_the_same(alloc: Global, text: &str) -> Result<Option<bool>, Memory> {
    let Some(tree) = tree_of(alloc, text)? else {
        return Ok(None);
    };
    let copy = tree.copy()?;
    Ok(Some(tree.own().same(copy.own())))
}

#[test]
fn own_trees_of_two_texts_are_compared(rt: HostRuntime) -> Result<(), Fail> {
    let alloc = rt.alloc();
    for (difference, text, other, same) in &PROGRAMS {
        let wanted = Some((*same, *same));
        assert_eq!(rt; are_same(alloc, text, other)?, wanted, "{difference}");
    }
    Ok(())
}

#[test]
fn a_block_inside_is_compared_by_itself(rt: HostRuntime) -> Result<(), Fail> {
    let alloc = rt.alloc();
    let text = "program p; procedure q; begin x end; begin q end.";
    let outside = "program o; procedure r; begin x end; begin r end.";
    let inside = "program p; procedure q; begin y end; begin q end.";
    assert_eq!(rt; are_first_blocks_same(alloc, text, outside)?, Some(true));
    assert_eq!(rt; are_first_blocks_same(alloc, text, inside)?, Some(false));
    Ok(())
}

#[test]
fn a_copy_is_the_same(rt: HostRuntime) -> Result<(), Fail> {
    let text = "program p; procedure q; begin x end; begin q end.";
    assert_eq!(rt; is_its_copy_the_same(rt.alloc(), text)?, Some(true));
    Ok(())
}
