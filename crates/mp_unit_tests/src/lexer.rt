use mp_ast::TokenKind;
use mp_base::SCRIPT_LIMIT;
use mp_lex::lex;
use std::alloc::Global;
use std::fmt::Write;
use std::process::Abort;
use std::test::Fail;

// The spelling, value or name of a token.
fn write_kind(out: &mut String, kind: &TokenKind) -> Result<(), Fail> {
    match kind {
        TokenKind::Id(name) => write!(out, "{}", str::from_utf8(name.get())?)?,
        TokenKind::Number(value) => write!(out, "{value}")?,
        TokenKind::Text(bytes) => write!(out, "'{}'", str::from_utf8(bytes.get())?)?,
        TokenKind::Word(word) => write!(out, "<{}>", word.spelling())?,
        TokenKind::Symbol(symbol) => write!(out, "{symbol:?}")?,
    }
    Ok(())
}

// The tokens of a text and then its errors, each as `what@start+length`.
fn listed(alloc: Global, text: &[u8]) -> Result<String, Fail> {
    let mut out = String::new(alloc);
    if text.len() > SCRIPT_LIMIT {
        return Ok(out);
    }
    let lexed = lex(alloc, text)?;
    for token in lexed.tokens.get() {
        write_kind(&mut out, &token.kind)?;
        let start = token.start;
        let len = token.len;
        write!(out, "@{start}+{len} ")?;
    }
    for error in lexed.errors.get() {
        let code = error.code;
        let start = error.start;
        let len = error.len;
        write!(out, "{code}@{start}+{len} ")?;
    }
    Ok(out)
}

fn are_listed(rt: &impl Abort, alloc: Global, rows: &[(&str, &str)]) -> Result<(), Fail> {
    for (text, want) in rows {
        assert_eq!(rt; listed(alloc, text.as_bytes())?.as_str(), *want);
    }
    Ok(())
}

#[test]
fn each_class_of_tokens_is_read(rt: HostRuntime) -> Result<(), Fail> {
    let text = b"PROGRAM P1;{c}12 'it''s' <=(*{*)@(..)\t2147483647";
    let expected =
        "<program>@0+7 p1@8+2 Semicolon@10+1 12@14+2 'it's'@17+7 LessEqual@25+2 Caret@32+1 \
        LeftBracket@33+2 RightBracket@35+2 2147483647@38+10 ";
    assert_eq!(rt; listed(rt.alloc(), text)?.as_str(), expected);
    Ok(())
}

#[test]
fn each_error_is_read(rt: HostRuntime) -> Result<(), Fail> {
    let text = b"?''1x 1.5 9223372036854775808/'a\n{";
    let expected = "101@0+1 104@1+2 105@3+2 106@6+3 107@10+19 108@29+1 103@30+2 102@33+1 ";
    assert_eq!(rt; listed(rt.alloc(), text)?.as_str(), expected);
    Ok(())
}

#[test]
fn an_item_ends_where_no_longer_one_stands(rt: HostRuntime) -> Result<(), Fail> {
    let rows = [
        ("1.5x", "x@3+1 106@0+3 "),
        ("1e5x", "x@3+1 106@0+3 "),
        ("1ex", "105@0+3 "),
        ("1..2", "1@0+1 DotDot@1+2 2@3+1 "),
        ("1.)", "1@0+1 RightBracket@1+2 "),
        ("(*)", "102@0+3 "),
        ("(..", "LeftBracket@0+2 Dot@2+1 "),
        ("'''", "103@0+3 "),
        ("", ""),
    ];
    are_listed(&rt, rt.alloc(), &rows)
}
