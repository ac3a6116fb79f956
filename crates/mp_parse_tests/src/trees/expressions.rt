use crate::trees::leaves::{character_string, identifier, number, sign};
use crate::trees::written::{Outcome, Written};
use mp_ast::{Access, Actual, Expr, Identifier, Member, Operation, Operator, Selector};

fn spelling(operator: Operator) -> &'static str {
    match operator {
        Operator::Equal => "=",
        Operator::NotEqual => "<>",
        Operator::Less => "<",
        Operator::LessOrEqual => "<=",
        Operator::Greater => ">",
        Operator::GreaterOrEqual => ">=",
        Operator::In => "in",
        Operator::Add => "+",
        Operator::Subtract => "-",
        Operator::Or => "or",
        Operator::Multiply => "*",
        Operator::Div => "div",
        Operator::Mod => "mod",
        Operator::And => "and",
    }
}

#[cycle(expressions)]
fn operation(out: &mut Written, x: &Operation<Expr>) -> Outcome {
    out.open_token(spelling(x.operator), x.at)?;
    expression(out, &x.operand)?;
    out.close()
}

#[cycle(expressions)]
fn selector(out: &mut Written, x: &Selector<Expr>) -> Outcome {
    match x {
        Selector::Index(at, index) => {
            out.open_token("index", *at)?;
            expression(out, index)?;
            out.close()
        }
        Selector::Field(at, name) => {
            out.open_token(".", *at)?;
            identifier(out, name)?;
            out.close()
        }
        Selector::Follow(at) => out.token("^", *at),
    }
}

#[cycle(expressions)]
fn actual(out: &mut Written, x: &Actual<Expr>) -> Outcome {
    match &x.width {
        None => expression(out, &x.value),
        Some(width) => {
            let width = width.get();
            out.open_token(":", width.at)?;
            expression(out, &x.value)?;
            expression(out, &width.value)?;
            out.close()
        }
    }
}

#[cycle(expressions)]
fn member(out: &mut Written, x: &Member<Expr>) -> Outcome {
    match &x.last {
        None => expression(out, &x.first),
        Some(last) => {
            out.open_word("..")?;
            expression(out, &x.first)?;
            expression(out, last)?;
            out.close()
        }
    }
}

// An expression with operators between operands.
#[cycle(expressions)]
fn with_operators(out: &mut Written, x: &Expr) -> Outcome {
    match x {
        Expr::Product(first, more) => {
            out.open_word("product")?;
            expression(out, first.get())?;
            for x in more.as_slice() {
                operation(out, x)?;
            }
        }
        Expr::Sum(some, first, more) => {
            out.open_word("sum")?;
            sign(out, some)?;
            expression(out, first.get())?;
            for x in more.as_slice() {
                operation(out, x)?;
            }
        }
        Expr::Relation(left, right) => {
            out.open_word("relation")?;
            expression(out, left.get())?;
            operation(out, right.get())?;
        }
        _ => return Ok(()),
    }
    out.close()
}

// Each loop over parts of an expression stands where the expression is taken apart, so that it is seen to end.
#[cycle(expressions)]
pub fn expression(out: &mut Written, x: &Expr) -> Outcome {
    match x {
        Expr::Number(value) => return number(out, value),
        Expr::Text(characters) => return character_string(out, characters),
        Expr::Nil(at) => return out.token("nil", *at),
        Expr::Access(variable) => {
            if variable.selectors.is_empty() {
                return identifier(out, &variable.name);
            }
            out.open()?;
            identifier(out, &variable.name)?;
            for x in variable.selectors.as_slice() {
                selector(out, x)?;
            }
        }
        Expr::Call(name, given) => {
            out.open_word("call")?;
            identifier(out, name)?;
            for x in given.as_slice() {
                actual(out, x)?;
            }
        }
        Expr::Inside(at, inside) => {
            out.open_token("inside", *at)?;
            expression(out, inside.get())?;
        }
        Expr::Not(at, operand) => {
            out.open_token("not", *at)?;
            expression(out, operand.get())?;
        }
        Expr::Set(at, members) => {
            out.open_token("set", *at)?;
            for x in members.as_slice() {
                member(out, x)?;
            }
        }
        Expr::Product(..) | Expr::Sum(..) | Expr::Relation(..) => return with_operators(out, x),
    }
    out.close()
}

// ---- parts of statements

/// `a@4`, or `(a@4 s s ..)`
pub fn access(out: &mut Written, x: &Access<Expr>) -> Outcome {
    if x.selectors.is_empty() {
        return identifier(out, &x.name);
    }
    out.open()?;
    identifier(out, &x.name)?;
    for x in x.selectors.as_slice() {
        selector(out, x)?;
    }
    out.close()
}

/// `(call a@4 x x ..)`
pub fn call(out: &mut Written, name: &Identifier, given: &[Actual<Expr>]) -> Outcome {
    out.open_word("call")?;
    identifier(out, name)?;
    for x in given {
        actual(out, x)?;
    }
    out.close()
}
