ghost use Rattle.std.specs.Prelude.{◌≡◌, ◌++◌, IfOk, OnOk};
ghost use Rattle.mp_ast.specs.PlainStatements.{plain_statement, plain_statements};
ghost use Rattle.mp_tables.specs.StatementWalks as spec;
ghost use Rattle.mp_decl.specs.Walks.{Walks, WalksAll, bare_names};

use mp_ast::{Access, Expr, Number, Statement};
use mp_base::{Memory, Name};
use sqlite_items::Items;
use std::alloc::Global;

/// What the statements of a statement part set, and the labels before them, in order of text.
#[derive(Drop)]
pub struct Walked {
    /// The names of the control variables of its `for` statements.
    pub controls: Items<Name>,
    /// The bare names on the left of `:=`.
    pub assigned: Items<Name>,
    /// The labels before its statements.
    pub prefixes: Items<Number>,
}

// Keeps the name on the left of a `:=`, where it is bare.
fn assigned(variable: &Access<Expr>, out: &mut Items<Name>) -> Result<(), Memory>
    ensures { OnOk result (out.new ≡ out.old ++ bare_names variable.now) }
{
    if variable.selectors.is_empty() {
        out.push(variable.name.name.copy()?)?;
    }
    Ok(())
}

// Adds what a statement sets, and the labels before it and the statements in it.
fn walk(s: &Statement, out: &mut Walked) -> Result<(), Memory>
    ensures { OnOk result (Walks out.old (spec.with_inner (plain_statement s.now)) out.new) }
{
    match s {
        Statement::Labelled(label, s) => {
            out.prefixes.push(*label)?;
            walk(s.get(), out)
        }
        Statement::Compound(_, statements) => {
            'compound: for s in statements.as_slice() {
                walk(s, out)?;
            }
            Ok(())
        }
        Statement::If(_, _, s, other) => {
            walk(s.get(), out)?;
            match other {
                Some(t) => walk(t.get(), out),
                None => Ok(()),
            }
        }
        Statement::Case(_, _, arms) => {
            'arms: for arm in arms.as_slice() {
                walk(&arm.body, out)?;
            }
            Ok(())
        }
        Statement::While(_, _, s) => walk(s.get(), out),
        Statement::Repeat(_, statements, _) => {
            'repeated: for s in statements.as_slice() {
                walk(s, out)?;
            }
            Ok(())
        }
        Statement::For(_, head, s) => {
            out.controls.push(head.get().variable.name.copy()?)?;
            walk(s.get(), out)
        }
        Statement::With(_, _, s) => walk(s.get(), out),
        Statement::Assign(variable, _, _) => assigned(variable, &mut out.assigned),
        Statement::Empty(_) => Ok(()),
        Statement::Call(_, _) => Ok(()),
        Statement::Goto(_, _) => Ok(()),
    }
}

/// What the statements of a statement part set, and the labels before them (ISO 7185, 6.8).
pub fn walk_all(alloc: Global, statements: &[Statement]) -> Result<Walked, Memory>
    ensures { IfOk result (λ walked. WalksAll (plain_statements statements.now) walked) }
{
    let mut out = Walked {
        controls: Items::new(alloc),
        assigned: Items::new(alloc),
        prefixes: Items::new(alloc),
    };
    'statements: for s in statements {
        walk(s, &mut out)?;
    }
    Ok(out)
}
