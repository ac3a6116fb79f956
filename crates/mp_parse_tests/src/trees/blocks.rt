use crate::trees::headings::heading;
use crate::trees::leaves::{constant, identifier, identifiers, number};
use crate::trees::statements::statements;
use crate::trees::types::{denoter, section};
use crate::trees::written::{Outcome, Written};
use mp_ast::{Block, Declaration, DeclaredBody, SharedTree, StatementPart};

fn program(out: &mut Written, x: &Block) -> Outcome {
    if let Some(heading) = &x.program {
        out.open_word("program")?;
        identifier(out, &heading.name)?;
        identifiers(out, heading.parameters.as_slice())?;
        out.close()?;
    }
    Ok(())
}

fn labels(out: &mut Written, x: &Block) -> Outcome {
    if x.labels.is_empty() {
        return Ok(());
    }
    out.open_word("label")?;
    for label in x.labels.as_slice() {
        number(out, label)?;
    }
    out.close()
}

fn constants(out: &mut Written, x: &Block) -> Outcome {
    for x in x.constants.as_slice() {
        out.open_word("const")?;
        identifier(out, &x.name)?;
        constant(out, &x.value)?;
        out.token(";", x.semicolon)?;
        out.close()?;
    }
    Ok(())
}

fn types(out: &mut Written, x: &Block) -> Outcome {
    for x in x.types.as_slice() {
        out.open_word("type")?;
        identifier(out, &x.name)?;
        denoter(out, x.of.get())?;
        out.token(";", x.semicolon)?;
        out.close()?;
    }
    Ok(())
}

fn variables(out: &mut Written, x: &Block) -> Outcome {
    if x.variables.is_empty() {
        return Ok(());
    }
    out.open_word("var")?;
    for x in x.variables.as_slice() {
        section(out, x)?;
    }
    out.close()
}

fn declaration(out: &mut Written, x: &Declaration) -> Outcome {
    out.open_word("declare")?;
    heading(out, &x.heading)?;
    out.token(";", x.semicolon)?;
    match x.body {
        DeclaredBody::Block => out.word("block")?,
        DeclaredBody::Forward(at) => out.token("forward", at)?,
    }
    out.close()
}

// A block's own tree: `(block .. tokens)`
fn block(out: &mut Written, x: &Block) -> Outcome {
    out.open_word("block")?;
    program(out, x)?;
    labels(out, x)?;
    constants(out, x)?;
    types(out, x)?;
    variables(out, x)?;
    for x in x.declarations.as_slice() {
        declaration(out, x)?;
    }
    let StatementPart::Compound(begin, list, end) = &x.statements;
    out.open_token("begin", *begin)?;
    statements(out, list.as_slice())?;
    out.token("end", *end)?;
    out.close()?;
    out.count(u64::from(x.tokens))?;
    out.close()
}

/// A line for the block's own tree, and behind it one for each block in it, in order of text. Before a block of depth
/// n stand n - 1 dots.
pub fn tree(out: &mut Written, x: &SharedTree, dots: usize) -> Outcome {
    for _ in 0..dots {
        out.add(b". ")?;
    }
    block(out, x.own().get())?;
    out.add(b"\n")?;
    let inside = x.inside();
    'inside: for nested in inside {
        tree(out, nested, dots.saturating_add(1))?;
    }
    Ok(())
}
