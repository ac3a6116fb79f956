ghost use Rattle.std.specs.Prelude.{◌≡◌, ◌++◌, ◌∷◌, [], OnOk};
ghost use Rattle.mp_tables.specs.Reports as reports;
ghost use Rattle.mp_tables.specs.Reports.{Follows, FollowsAs};
ghost use Rattle.mp_tables.specs.Names as name;
ghost use Rattle.mp_tables.specs.Denoters as denoter;
ghost use Rattle.mp_decl.specs.Judged.{use_of};

use mp_ast::Identifier;
use mp_base::{Memory, Path, Place};
use mp_scope::Scope;
use mp_tables::{Decl, Names, Required, RuleError, Seen};
use sqlite_items::Items;

// Reports an error at the token of this ordinal.
pub(crate) fn report(code: u16, at: u32, errors: &mut Items<RuleError>) -> Result<(), Memory>
    ensures { OnOk result (errors.new ≡ errors.old ++ record { at = at; code = code } ∷ []) }
{
    errors.push(RuleError { at, code })?;
    Ok(())
}

// Reports an error at the token of this ordinal, where something is wrong.
pub(crate) fn report_if<S: Scope>(
    wrong: bool,
    code: u16,
    at: u32,
    scope: &mut S,
    errors: &mut Items<RuleError>,
) -> Result<(), Memory>
    ensures { Follows (reports.report_if wrong code at) (S.state scope.old) errors.old (S.state scope.new) errors.new result }
{
    if wrong {
        report(code, at, errors)?;
    }
    Ok(())
}

// What a used name is, by what it is at its place.
fn declared_use<S: Scope>(
    at: u32,
    seen: Seen,
    scope: &mut S,
    errors: &mut Items<RuleError>,
) -> Result<Option<Decl>, Memory>
    ensures { FollowsAs use_of (name.declared_use at seen) (S.state scope.old) errors.old (S.state scope.new) errors.new result }
{
    match seen {
        Seen::Is(Decl::Required(Required::Real)) => {
            report(303, at, errors)?;
            Ok(None)
        }
        Seen::Is(Decl::Required(required)) => Ok(Some(Decl::Required(required))),
        Seen::Is(Decl::Const(path, value)) => Ok(Some(Decl::Const(path, value))),
        Seen::Is(Decl::Sort(path, of)) => Ok(Some(Decl::Sort(path, of))),
        Seen::Is(Decl::Var(path, variable)) => Ok(Some(Decl::Var(path, variable))),
        Seen::Is(Decl::Param(path, parameter)) => Ok(Some(Decl::Param(path, parameter))),
        Seen::Is(Decl::Proc(path, routine)) => Ok(Some(Decl::Proc(path, routine))),
        Seen::Is(Decl::Func(path, routine, offset)) => Ok(Some(Decl::Func(path, routine, offset))),
        Seen::Is(Decl::Label(path, standing)) => Ok(Some(Decl::Label(path, standing))),
        Seen::NotYet => {
            report(302, at, errors)?;
            Ok(None)
        }
        Seen::Absent => {
            report(301, at, errors)?;
            Ok(None)
        }
    }
}

// What a name is that stands at one ordinal and is looked up at another, where the block itself does not declare it.
fn looked_up<S: Scope>(
    path: &Path,
    x: &Identifier,
    place: u32,
    scope: &mut S,
    errors: &mut Items<RuleError>,
) -> Result<Option<Decl>, Memory>
    ensures { FollowsAs use_of (name.looked_up path.now x.now.at x.now.name place) (S.state scope.old) errors.old (S.state scope.new) errors.new result }
{
    let place = Place {
        path: path.copy()?,
        ordinal: place,
    };
    let seen = scope.find(&x.name, &place)?;
    declared_use(x.at, seen, scope, errors)
}

// What a name is that stands at one ordinal and is looked up at another. The scope is asked where the block itself does not
// declare it.
pub(crate) fn look_at<S: Scope>(
    path: &Path,
    names: &Names,
    x: &Identifier,
    place: u32,
    scope: &mut S,
    errors: &mut Items<RuleError>,
) -> Result<Option<Decl>, Memory>
    ensures { FollowsAs use_of (denoter.look_at path.now names.now x.now.at x.now.name place) (S.state scope.old) errors.old (S.state scope.new) errors.new result }
{
    match names.get(&x.name) {
        Some(entry) if entry.last < place => {
            let seen = Seen::Is(entry.decl.copy()?);
            declared_use(x.at, seen, scope, errors)
        }
        Some(_) => declared_use(x.at, Seen::NotYet, scope, errors),
        None => looked_up(path, x, place, scope, errors),
    }
}

// What a used name is.
pub(crate) fn look<S: Scope>(
    path: &Path,
    names: &Names,
    x: &Identifier,
    scope: &mut S,
    errors: &mut Items<RuleError>,
) -> Result<Option<Decl>, Memory>
    ensures { FollowsAs use_of (denoter.look path.now names.now x.now) (S.state scope.old) errors.old (S.state scope.new) errors.new result }
{
    look_at(path, names, x, x.at, scope, errors)
}
