// What an operation takes and puts, and whether the next instruction may follow it.
ghost use Rattle.std.specs.Prelude.{◌≡◌};
ghost use Rattle.mp_code.specs.Shape.{file_puts, file_takes, goes_on, is_bare, puts, result_count, takes};

use crate::instructions::{FileOperation, Operation};

fn file_takes(operation: FileOperation) -> u64
    ensures { result ≡ file_takes operation }
{
    match operation {
        FileOperation::WriteInt
        | FileOperation::WriteChar
        | FileOperation::WriteBool
        | FileOperation::WriteChars => 3,
        _ => 1,
    }
}

fn file_puts(operation: FileOperation) -> u64
    ensures { result ≡ file_puts operation }
{
    match operation {
        FileOperation::Eof
        | FileOperation::Eoln
        | FileOperation::ReadInt
        | FileOperation::ReadChar => 1,
        _ => 0,
    }
}

fn result_count(is_function: bool) -> u64
    ensures { result ≡ result_count is_function }
{
    if is_function { 1 } else { 0 }
}

/// How many operands the operation takes.
pub fn takes(operation: &Operation) -> u64
    ensures { result ≡ takes operation.now }
{
    match operation {
        Operation::Dup
        | Operation::Load
        | Operation::Clear { .. }
        | Operation::LoadMany { .. }
        | Operation::Offset { .. }
        | Operation::Follow
        | Operation::Active { .. }
        | Operation::Choose { .. }
        | Operation::Neg
        | Operation::Odd
        | Operation::Not
        | Operation::Range { .. }
        | Operation::Within { .. }
        | Operation::False { .. }
        | Operation::Case { .. }
        | Operation::New { .. }
        | Operation::Dispose => 1,
        Operation::Store
        | Operation::StoreMany { .. }
        | Operation::Index { .. }
        | Operation::Tag { .. }
        | Operation::Add
        | Operation::Sub
        | Operation::Mul
        | Operation::Div
        | Operation::Mod
        | Operation::And
        | Operation::Or
        | Operation::Cmp { .. }
        | Operation::Has
        | Operation::One
        | Operation::Union
        | Operation::Meet
        | Operation::Less => 2,
        Operation::Span => 3,
        Operation::Call { operands, .. } => u64::from(*operands),
        Operation::CallBy { operands, .. } => u64::from(*operands) + 1,
        Operation::File { operation } => file_takes(*operation),
        _ => 0,
    }
}

/// How many operands the operation puts; a call of a function puts its result.
pub fn puts(operation: &Operation) -> u64
    ensures { result ≡ puts operation.now }
{
    match operation {
        Operation::Dup => 2,
        Operation::Stmt
        | Operation::Store
        | Operation::Clear { .. }
        | Operation::StoreMany { .. }
        | Operation::Tag { .. }
        | Operation::Jump { .. }
        | Operation::False { .. }
        | Operation::Case { .. }
        | Operation::Leave { .. }
        | Operation::Return { .. }
        | Operation::New { .. }
        | Operation::Dispose => 0,
        Operation::Call { is_function, .. } => result_count(*is_function),
        Operation::CallBy { is_function, .. } => result_count(*is_function),
        Operation::File { operation } => file_puts(*operation),
        _ => 1,
    }
}

/// Whether the next instruction may follow.
pub fn goes_on(operation: &Operation) -> bool
    ensures { result ≡ goes_on operation.now }
{
    match operation {
        Operation::Jump { .. }
        | Operation::Case { .. }
        | Operation::Leave { .. }
        | Operation::Return { .. } => false,
        _ => true,
    }
}

/// Whether the operation stands only where no operand is.
pub fn is_bare(operation: &Operation) -> bool
    ensures { result ≡ is_bare operation.now }
{
    match operation {
        Operation::Stmt | Operation::Leave { .. } | Operation::Return { .. } => true,
        _ => false,
    }
}
