use crate::trees::leaves::{constant, constants, identifier, identifiers};
use crate::trees::written::{Outcome, Written};
use mp_ast::{Denoter, Index, Section, Variant, VariantPart};

fn packed(out: &mut Written, is_packed: bool) -> Outcome {
    if is_packed {
        return out.word("packed");
    }
    Ok(())
}

/// `(a@3 b@5 : T)`
#[cycle(types)]
pub fn section(out: &mut Written, x: &Section<Denoter>) -> Outcome {
    out.open()?;
    identifiers(out, x.names.as_slice())?;
    out.word(":")?;
    denoter(out, x.of.get())?;
    out.close()
}

#[cycle(types)]
fn index(out: &mut Written, x: &Index<Denoter>) -> Outcome {
    out.open_token("index", x.at)?;
    denoter(out, &x.of)?;
    out.close()
}

#[cycle(types)]
fn variant(out: &mut Written, x: &Variant<Denoter>) -> Outcome {
    out.open_word("variant")?;
    constants(out, x.constants.as_slice())?;
    denoter(out, x.fields.get())?;
    out.close()
}

// What stands before the variants of a variant part.
fn selector(out: &mut Written, x: &VariantPart<Denoter>) -> Outcome {
    if let Some(tag) = &x.tag {
        identifier(out, tag)?;
        out.word(":")?;
    }
    identifier(out, &x.of)
}

// The sections and the variant part of a field list.
#[cycle(types)]
fn fields(out: &mut Written, x: &Denoter) -> Outcome {
    let Denoter::Fields(fixed, part) = x else {
        return Ok(());
    };
    for x in fixed.as_slice() {
        section(out, x)?;
    }
    let Some(part) = part else {
        return Ok(());
    };
    out.open_token("case", part.at)?;
    selector(out, part)?;
    for x in part.variants.as_slice() {
        variant(out, x)?;
    }
    out.close()
}

// A structured type.
#[cycle(types)]
fn structure(out: &mut Written, x: &Denoter) -> Outcome {
    match x {
        Denoter::Array(_, is_packed, indices, component) => {
            out.open_word("array")?;
            packed(out, *is_packed)?;
            for x in indices.as_slice() {
                index(out, x)?;
            }
            out.word("of")?;
            denoter(out, component.get())?;
        }
        Denoter::Record(at, is_packed, list) => {
            out.open_token("record", *at)?;
            packed(out, *is_packed)?;
            denoter(out, list.get())?;
        }
        Denoter::Set(at, is_packed, base) => {
            out.open_token("set", *at)?;
            packed(out, *is_packed)?;
            denoter(out, base.get())?;
        }
        Denoter::File(first, at, component) => {
            out.open_token("file", *first)?;
            out.token("file", *at)?;
            denoter(out, component.get())?;
        }
        _ => return Ok(()),
    }
    out.close()
}

#[cycle(types)]
pub fn denoter(out: &mut Written, x: &Denoter) -> Outcome {
    match x {
        Denoter::Named(name) => return identifier(out, name),
        Denoter::Fields(..) => {
            out.open_word("fields")?;
            fields(out, x)?;
        }
        Denoter::Enumeration(at, names) => {
            out.open_token("enum", *at)?;
            identifiers(out, names.as_slice())?;
        }
        Denoter::Subrange(first, last) => {
            out.open_word("..")?;
            constant(out, first)?;
            constant(out, last)?;
        }
        Denoter::Pointer(at, domain) => {
            out.open_token("^", *at)?;
            identifier(out, domain)?;
        }
        Denoter::Array(..) | Denoter::Record(..) | Denoter::Set(..) | Denoter::File(..) =>
            return structure(out, x),
    }
    out.close()
}
