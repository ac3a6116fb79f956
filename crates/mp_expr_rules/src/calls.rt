// Calls of declared procedures and functions, and of procedural parameters (ISO 7185, 6.6.3, 6.7.3). The actual parameters
// have been judged already.
ghost use Rattle.std.specs.Prelude.{◌≡◌, IfOk, Some, map, option_map};
ghost use Rattle.mp_tables.specs.declared.declarations.Decl.TheVariants as decl;
ghost use Rattle.mp_tables.specs.Reports as reports;
ghost use Rattle.mp_tables.specs.Reports.{Follows, FollowsAs};
ghost use Rattle.mp_tables.specs.Names as names;
ghost use Rattle.mp_tables.specs.Calls as rule;
ghost use Rattle.mp_expr_rules.specs.Regions.{use_of};
ghost use Rattle.mp_expr_rules.specs.Calling.{given_of, judged_of};

use crate::judged::{Given, Judged};
use crate::names::report;
use crate::region::Use;
use crate::variables::located;
use mp_ast::Identifier;
use mp_base::{Memory, Name, Path};
use mp_scope::Scope;
use mp_tables::{
    Callee, Decl, FormalKind, Heading, Parameter, Required, Routine, RuleError, Shared,
};
use sqlite_items::Items;
use std::alloc::Global;

/// A width where none is allowed is an error (ISO 7185, 6.9.3).
pub fn no_width<S: Scope>(
    j: &Judged,
    scope: &mut S,
    errors: &mut Items<RuleError>,
) -> Result<(), Memory>
    ensures { Follows (rule.no_width (judged_of j.now)) (S.state scope.old) errors.old (S.state scope.new) errors.new result }
{
    match &j.width {
        Some(width) => report(345, width.at, errors),
        None => Ok(()),
    }
}

/// Widths where none are allowed are errors.
pub fn no_widths<S: Scope>(
    js: &[Judged],
    scope: &mut S,
    errors: &mut Items<RuleError>,
) -> Result<(), Memory>
    ensures { Follows (reports.each rule.no_width (map judged_of js.now)) (S.state scope.old) errors.old (S.state scope.new) errors.new result }
{
    'actuals: for j in js {
        no_width(j, scope, errors)?;
    }
    Ok(())
}

// ---- procedures and functions by their names

// The heading of no parameters and no result, where there is none.
fn heading_or_none(alloc: Global, heading: &Option<Heading>) -> Result<Heading, Memory>
    ensures { IfOk result (λ h. h ≡ rule.heading_or_none heading.now) }
{
    match heading {
        Some(heading) => heading.copy(),
        None => Ok(Heading {
            formals: Shared::new(alloc, Items::new(alloc))?,
            result: None,
        }),
    }
}

// What is called where a block is called, which the block with this path declares.
fn block_callee(path: &Path, block: &Option<Path>) -> Result<Option<Callee>, Memory>
    ensures { IfOk result (λ c. c ≡ rule.block_callee path.now block.now) }
{
    let Some(block) = block else {
        return Ok(None);
    };
    let depth = path.steps().len();
    if depth > u32::MAX as usize {
        return Err(Memory);
    }
    Ok(Some(Callee::Block(depth as u32, block.copy()?)))
}

// A declared procedure or function.
fn given_routine(kind: FormalKind, path: &Path, routine: &Routine) -> Result<Option<Given>, Memory>
    ensures { IfOk result (λ g. option_map given_of g ≡ Some (record { kind = kind; callee = rule.block_callee path.now routine.now.block; heading = routine.now.heading })) }
{
    Ok(Some(Given {
        kind,
        callee: block_callee(path, &routine.block)?,
        heading: routine.heading.copy()?,
    }))
}

// A procedural or functional parameter.
fn given_parameter(
    alloc: Global,
    name: &Name,
    path: &Path,
    p: &Parameter,
) -> Result<Option<Given>, Memory>
    ensures { IfOk result (λ g. option_map given_of g ≡ rule.given_use name.now (names.Declared (decl.Param path.now p.now))) }
{
    match p.kind {
        FormalKind::Procedure => Ok(Some(Given {
            kind: FormalKind::Procedure,
            callee: Some(Callee::Parameter(located(name, path, p.offset)?)),
            heading: heading_or_none(alloc, &p.own)?,
        })),
        FormalKind::Function => Ok(Some(Given {
            kind: FormalKind::Function,
            callee: Some(Callee::Parameter(located(name, path, p.offset)?)),
            heading: heading_or_none(alloc, &p.own)?,
        })),
        FormalKind::Value => Ok(None),
        FormalKind::Variable => Ok(None),
    }
}

/// The procedure or function that a name is, if it is one that is declared, or a procedural parameter.
pub fn given_use(alloc: Global, name: &Name, u: &Use<'_>) -> Result<Option<Given>, Memory>
    ensures { IfOk result (λ g. option_map given_of g ≡ rule.given_use name.now (use_of name.now u.now)) }
{
    match u {
        Use::Declared(Decl::Proc(path, routine)) => {
            given_routine(FormalKind::Procedure, path, routine)
        }
        Use::Declared(Decl::Func(path, routine, _)) => {
            given_routine(FormalKind::Function, path, routine)
        }
        Use::Declared(Decl::Param(path, p)) => given_parameter(alloc, name, path, p),
        Use::Declared(Decl::Const(_, _)) => Ok(None),
        Use::Declared(Decl::Sort(_, _)) => Ok(None),
        Use::Declared(Decl::Var(_, _)) => Ok(None),
        Use::Declared(Decl::Label(_, _)) => Ok(None),
        Use::Declared(Decl::Required(_)) => Ok(None),
        Use::OpenField(_, _) => Ok(None),
    }
}

// Whether a required identifier is that of a procedure or function.
fn is_routine(required: Required) -> bool
    ensures { result ≡ rule.is_required_routine (names.Declared (decl.Required required)) }
{
    match required {
        Required::Integer => false,
        Required::Boolean => false,
        Required::Char => false,
        Required::Text => false,
        Required::False => false,
        Required::True => false,
        Required::Maxint => false,
        Required::Input => false,
        Required::Output => false,
        Required::Real => false,
        Required::Abs => true,
        Required::Sqr => true,
        Required::Odd => true,
        Required::Ord => true,
        Required::Succ => true,
        Required::Pred => true,
        Required::Chr => true,
        Required::Eof => true,
        Required::Eoln => true,
        Required::Reset => true,
        Required::Rewrite => true,
        Required::Get => true,
        Required::Put => true,
        Required::Read => true,
        Required::Readln => true,
        Required::Write => true,
        Required::Writeln => true,
        Required::Page => true,
        Required::New => true,
        Required::Dispose => true,
        Required::Pack => true,
        Required::Unpack => true,
    }
}

// Whether a name is that of a required procedure or function.
fn is_required_routine(name: &Name, u: &Use<'_>) -> bool
    ensures { result ≡ rule.is_required_routine (use_of name.now u.now) }
{
    match u {
        Use::Declared(Decl::Required(required)) => is_routine(*required),
        Use::Declared(Decl::Const(_, _)) => false,
        Use::Declared(Decl::Sort(_, _)) => false,
        Use::Declared(Decl::Var(_, _)) => false,
        Use::Declared(Decl::Param(_, _)) => false,
        Use::Declared(Decl::Proc(_, _)) => false,
        Use::Declared(Decl::Func(_, _, _)) => false,
        Use::Declared(Decl::Label(_, _)) => false,
        Use::OpenField(_, _) => false,
    }
}

// The procedure or function that an actual parameter names, by what the name is.
fn routine_by<S: Scope>(
    alloc: Global,
    x: &Identifier,
    u: &Use<'_>,
    scope: &mut S,
    errors: &mut Items<RuleError>,
) -> Result<Option<Given>, Memory>
    ensures { FollowsAs (option_map given_of) (rule.routine_by x.now.at (use_of x.now.name u.now) (rule.given_use x.now.name (use_of x.now.name u.now))) (S.state scope.old) errors.old (S.state scope.new) errors.new result }
{
    match given_use(alloc, &x.name, u)? {
        Some(given) => Ok(Some(given)),
        None => {
            if is_required_routine(&x.name, u) {
                report(344, x.at, errors)?;
                return Ok(None);
            }
            report(305, x.at, errors)?;
            Ok(None)
        }
    }
}

/// The procedure or function that an actual parameter names (ISO 7185, 6.6.3.4, 6.6.3.5).
pub fn routine_use<S: Scope>(
    alloc: Global,
    x: &Identifier,
    u: &Option<Use<'_>>,
    scope: &mut S,
    errors: &mut Items<RuleError>,
) -> Result<Option<Given>, Memory>
    ensures { FollowsAs (option_map given_of) (rule.routine_use x.now (option_map (use_of x.now.name) u.now)) (S.state scope.old) errors.old (S.state scope.new) errors.new result }
{
    match u {
        Some(u) => routine_by(alloc, x, u, scope, errors),
        None => Ok(None),
    }
}
