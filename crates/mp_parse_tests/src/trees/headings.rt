use crate::trees::leaves::{identifier, identifiers};
use crate::trees::written::{Outcome, Written};
use mp_ast::{FormalSection, HeadingKind, HeadingTree, Identifier};

// `: t@5`
fn of_type(out: &mut Written, name: &Identifier) -> Outcome {
    out.word(":")?;
    identifier(out, name)
}

#[cycle(headings)]
fn formals(out: &mut Written, list: &[FormalSection]) -> Outcome {
    for x in list {
        formal(out, x)?;
    }
    Ok(())
}

#[cycle(headings)]
fn formal(out: &mut Written, x: &FormalSection) -> Outcome {
    match x {
        FormalSection::Values(names, of) => {
            out.open()?;
            identifiers(out, names.as_slice())?;
            of_type(out, of)?;
        }
        FormalSection::Variables(at, names, of) => {
            out.open_token("var", *at)?;
            identifiers(out, names.as_slice())?;
            of_type(out, of)?;
        }
        FormalSection::Procedure(at, name, own) => {
            out.open_token("procedure", *at)?;
            identifier(out, name)?;
            formals(out, own.as_slice())?;
        }
        FormalSection::Function(at, name, own, of) => {
            out.open_token("function", *at)?;
            identifier(out, name)?;
            formals(out, own.as_slice())?;
            of_type(out, of)?;
        }
    }
    out.close()
}

pub fn heading(out: &mut Written, x: &HeadingTree) -> Outcome {
    out.open_token(
        match x.kind {
            HeadingKind::Procedure => "procedure",
            HeadingKind::Function(_) => "function",
        },
        x.at,
    )?;
    identifier(out, &x.name)?;
    formals(out, x.formals.as_slice())?;
    if let HeadingKind::Function(Some(of)) = &x.kind {
        of_type(out, of)?;
    }
    out.close()
}
