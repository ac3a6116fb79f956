use crate::trees::expressions::{access, call, expression};
use crate::trees::leaves::{constants, identifier, number};
use crate::trees::written::{Outcome, Written};
use mp_ast::{Access, Arm, Direction, Expr, ForHead, Statement};
use sqlite_items::Boxed;

#[cycle(statements)]
pub fn statements(out: &mut Written, list: &[Statement]) -> Outcome {
    for x in list {
        statement(out, x)?;
    }
    Ok(())
}

#[cycle(statements)]
fn arm(out: &mut Written, x: &Arm<Statement>) -> Outcome {
    out.open_word("arm")?;
    constants(out, x.constants.as_slice())?;
    statement(out, &x.body)?;
    out.close()
}

#[cycle(statements)]
fn else_part(out: &mut Written, x: &Option<Boxed<Statement>>) -> Outcome {
    match x {
        None => Ok(()),
        Some(second) => statement(out, second.get()),
    }
}

fn for_head(out: &mut Written, x: &ForHead) -> Outcome {
    identifier(out, &x.variable)?;
    out.token(":=", x.assign)?;
    expression(out, x.first.get())?;
    out.word(match x.direction {
        Direction::To => "to",
        Direction::Downto => "downto",
    })?;
    expression(out, x.last.get())
}

// `(a a ..)`
fn records(out: &mut Written, list: &[Access<Expr>]) -> Outcome {
    out.open()?;
    for x in list {
        access(out, x)?;
    }
    out.close()
}

// An `if` or a `case` statement.
#[cycle(statements)]
fn conditional(out: &mut Written, x: &Statement) -> Outcome {
    match x {
        Statement::If(at, condition, first, second) => {
            out.open_token("if", *at)?;
            expression(out, condition.get())?;
            statement(out, first.get())?;
            else_part(out, second)?;
        }
        Statement::Case(at, index, arms) => {
            out.open_token("case", *at)?;
            expression(out, index.get())?;
            for x in arms.as_slice() {
                arm(out, x)?;
            }
        }
        _ => return Ok(()),
    }
    out.close()
}

// A `while`, a `repeat` or a `for` statement.
#[cycle(statements)]
fn repetitive(out: &mut Written, x: &Statement) -> Outcome {
    match x {
        Statement::While(at, condition, body) => {
            out.open_token("while", *at)?;
            expression(out, condition.get())?;
            statement(out, body.get())?;
        }
        Statement::Repeat(at, list, condition) => {
            out.open_token("repeat", *at)?;
            statements(out, list.as_slice())?;
            out.word("until")?;
            expression(out, condition)?;
        }
        Statement::For(at, head, body) => {
            out.open_token("for", *at)?;
            for_head(out, head.get())?;
            statement(out, body.get())?;
        }
        _ => return Ok(()),
    }
    out.close()
}

#[cycle(statements)]
pub fn statement(out: &mut Written, x: &Statement) -> Outcome {
    match x {
        Statement::Empty(at) => return out.token("empty", *at),
        Statement::Call(name, given) => return call(out, name, given.as_slice()),
        Statement::Labelled(label, labelled) => {
            out.open_word("label")?;
            number(out, label)?;
            statement(out, labelled.get())?;
        }
        Statement::Assign(variable, at, value) => {
            out.open_token(":=", *at)?;
            access(out, variable)?;
            expression(out, value)?;
        }
        Statement::Goto(at, label) => {
            out.open_token("goto", *at)?;
            number(out, label)?;
        }
        Statement::Compound(at, list) => {
            out.open_token("begin", *at)?;
            statements(out, list.as_slice())?;
        }
        Statement::If(..) | Statement::Case(..) => return conditional(out, x),
        Statement::While(..) | Statement::Repeat(..) | Statement::For(..) => return repetitive(
            out, x,
        ),
        Statement::With(at, list, body) => {
            out.open_token("with", *at)?;
            records(out, list.as_slice())?;
            statement(out, body.get())?;
        }
    }
    out.close()
}
