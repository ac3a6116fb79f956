use crate::trees::written::{Outcome, Written};
use mp_ast::{CharacterString, Constant, Identifier, Number, Sign, SignKind};

pub fn identifier(out: &mut Written, x: &Identifier) -> Outcome {
    out.name(x.name.get(), x.at)
}

pub fn identifiers(out: &mut Written, names: &[Identifier]) -> Outcome {
    for name in names {
        identifier(out, name)?;
    }
    Ok(())
}

pub fn number(out: &mut Written, x: &Number) -> Outcome {
    out.number(x.value, x.at)
}

pub fn character_string(out: &mut Written, x: &CharacterString) -> Outcome {
    out.text(x.characters.get(), x.at)
}

/// A sign, where there is one.
pub fn sign(out: &mut Written, x: &Option<Sign>) -> Outcome {
    match x {
        None => Ok(()),
        Some(sign) => match sign.kind {
            SignKind::Plus => out.token("+", sign.at),
            SignKind::Minus => out.token("-", sign.at),
        },
    }
}

/// `1@3`, `(-@3 1@4)`, `a@3`, `(-@3 a@4)` or `'a'@3`
pub fn constant(out: &mut Written, x: &Constant) -> Outcome {
    match x {
        Constant::Number(None, value) => number(out, value),
        Constant::Number(some, value) => {
            out.open()?;
            sign(out, some)?;
            number(out, value)?;
            out.close()
        }
        Constant::Name(None, name) => identifier(out, name),
        Constant::Name(some, name) => {
            out.open()?;
            sign(out, some)?;
            identifier(out, name)?;
            out.close()
        }
        Constant::Text(characters) => character_string(out, characters),
    }
}

/// `(c c ..)`
pub fn constants(out: &mut Written, list: &[Constant]) -> Outcome {
    out.open()?;
    for x in list {
        constant(out, x)?;
    }
    out.close()
}
