// The parameters of a heading (ISO 7185, 6.6.3.1).
ghost use Rattle.std.specs.Prelude.{◌≡◌, ◌<◌, ◌↔◌, IfOk, IsTrue, map, nat_lt, take_while};
ghost use Rattle.mp_tables.specs.Headings as rule;
ghost use Rattle.mp_decl.specs.Judged.{parameter_of};

use mp_base::Memory;
use mp_tables::{Formal, FormalKind, Heading, Shared, copy_type};
use sqlite_items::Items;
use std::alloc::Global;

/// A formal parameter, which is lent, with the heading that it has, where it is procedural or functional.
#[derive(Drop)]
pub struct FormalParameter<'a> {
    pub formal: &'a Formal,
    pub own: Option<Heading>,
}

// A parameter of a procedural one that stands at this depth, by its depth in its own list.
fn shallower(depth: u32, formal: &Formal) -> Result<Formal, Memory>
    requires { depth < formal.now.depth }
    ensures { IfOk result (λ f. f ≡ rule.shallower depth formal.now) }
{
    Ok(Formal {
        depth: formal.depth - (depth + 1),
        section: formal.section,
        name: formal.name.copy()?,
        kind: formal.kind,
        of: copy_type(&formal.of)?,
    })
}

// Whether a parameter stands deeper than this.
fn is_deeper(depth: u32, formal: &Formal) -> bool
    ensures value { result ≡ nat_lt depth formal.now.depth }
    ensures deeper { IsTrue result ↔ depth < formal.now.depth }
{
    depth < formal.depth
}

// The parameters of a procedural one at this depth, among those that follow it.
fn deeper(alloc: Global, depth: u32, following: &[Formal]) -> Result<Shared<Formal>, Memory>
    ensures { IfOk result (λ fs. fs ≡ map (rule.shallower depth) (take_while (λ g. nat_lt depth g.depth) following.now)) }
{
    let mut rest = following;
    let mut found = Items::new(alloc);
    'formals: while let [formal, more @ ..] = rest {
        if !is_deeper(depth, formal) {
            return Shared::new(alloc, found);
        }
        found.push(shallower(depth, formal)?)?;
        rest = more;
    }
    Shared::new(alloc, found)
}

// The heading of a procedural or functional parameter, of those that follow it.
fn own_heading(
    alloc: Global,
    formal: &Formal,
    following: &[Formal],
) -> Result<Option<Heading>, Memory>
    ensures { IfOk result (λ h. h ≡ rule.own_heading formal.now following.now) }
{
    match formal.kind {
        FormalKind::Procedure => Ok(Some(Heading {
            formals: deeper(alloc, formal.depth, following)?,
            result: None,
        })),
        FormalKind::Function => Ok(Some(Heading {
            formals: deeper(alloc, formal.depth, following)?,
            result: copy_type(&formal.of)?,
        })),
        FormalKind::Value => Ok(None),
        FormalKind::Variable => Ok(None),
    }
}

/// The parameters in a heading's list, without those of procedural ones.
pub fn parameters_in<'a>(
    alloc: Global,
    formals: &'a [Formal],
) -> Result<Items<FormalParameter<'a>>, Memory>
    ensures { IfOk result (λ ps. map parameter_of ps ≡ rule.parameters_in formals.now) }
{
    let mut rest = formals;
    let mut found = Items::new(alloc);
    'formals: while let [formal, following @ ..] = rest {
        if formal.depth == 0 {
            found.push(FormalParameter {
                formal,
                own: own_heading(alloc, formal, following)?,
            })?;
        }
        rest = following;
    }
    Ok(found)
}
