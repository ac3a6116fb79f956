// Codes that are written by hand: operations as a table has them, and what a machine with such codes comes to.
use mp_base::{Bytes, Name, Path};
use mp_code::{
    CaseArm, Code, FileOperation, Group, Instr, Operation, RangeFault, Relation, RequiredFile,
};
use mp_machine::{Gone, Machine};
use sqlite_items::Items;
use std::alloc::{AllocError, Global};
use std::sync::Arc;
use std::test::Fail;

// An operation of a row. Blocks have numbers: 0 is the program's, 1 and 3 stand in it, 2 stands in 1.
#[derive(Clone, Copy)]
pub enum Op {
    Stmt,
    Int(i64),
    Nil,
    Empty,
    Chars(&'static [u8]),
    Proc(u32, u32),
    // of the program's block, and of a block of a depth
    Addr(u32),
    At(u32, u32),
    FileAt(RequiredFile),
    Dup,
    Load,
    Store,
    Clear(u32),
    LoadMany(u32),
    StoreMany(u32),
    Offset(u32),
    Index(i64, i64, u32),
    Follow,
    // the offset of the tag and its one constant
    Active(u32, i64),
    Choose(u32, i64),
    // one group, of the constant alone, and one cell behind the tag
    Tag(i64),
    Add,
    Sub,
    Mul,
    Div,
    Mod,
    Neg,
    Odd,
    Not,
    And,
    Or,
    Range(i64, i64, RangeFault),
    Within(i64, i64),
    Cmp(Relation),
    Has,
    One,
    Span,
    Union,
    Meet,
    Less,
    Jump(u32),
    False(u32),
    // the one arm
    Case(i64, u32),
    Leave(u32, u32),
    // the depth of the static parent, the block, its operands, and whether it is a function
    Call(u32, u32, u32, bool),
    CallBy(u32, bool),
    Return,
    Result(u32),
    New(u32),
    Dispose,
    File(FileOperation),
}

// What a run comes to.
#[derive(Clone, Copy, PartialEq, Eq)]
pub enum Came {
    Onward,
    Ended,
    Missing,
    Fault(u8),
    Limit(u8),
    Memory,
    Unready,
}

pub fn path(alloc: Global, block: u32) -> Result<Path, Fail> {
    let top = Path::top(alloc)?;
    let outer = top.child(&Name::new(alloc, b"outer")?, 1)?;
    match block {
        0 => Ok(top),
        1 => Ok(outer),
        2 => Ok(outer.child(&Name::new(alloc, b"inner")?, 1)?),
        _ => Ok(top.child(&Name::new(alloc, b"other")?, 1)?),
    }
}

fn one(alloc: Global, constant: i64) -> Result<Items<i64>, AllocError> {
    let mut constants = Vec::new(alloc);
    constants.push(constant)?;
    Ok(Items::from_vec(constants))
}

fn groups(alloc: Global, constant: i64) -> Result<Items<Group>, AllocError> {
    let mut groups = Vec::new(alloc);
    groups.push(Group {
        constants: one(alloc, constant)?,
    })?;
    Ok(Items::from_vec(groups))
}

fn arms(alloc: Global, constant: i64, target: u32) -> Result<Items<CaseArm>, AllocError> {
    let mut arms = Vec::new(alloc);
    arms.push(CaseArm { constant, target })?;
    Ok(Items::from_vec(arms))
}

// Operations that carry lists or paths.
fn long_operation(alloc: Global, op: Op) -> Result<Operation, Fail> {
    Ok(match op {
        Op::Chars(bytes) => Operation::Chars {
            bytes: Bytes::of(alloc, bytes)?,
        },
        Op::Proc(depth, block) => Operation::Proc {
            depth,
            path: path(alloc, block)?,
        },
        Op::Active(offset, constant) => Operation::Active {
            offset,
            constants: one(alloc, constant)?,
        },
        Op::Choose(offset, constant) => Operation::Choose {
            offset,
            constant,
            constants: one(alloc, constant)?,
            cells: 1,
        },
        Op::Tag(constant) => Operation::Tag {
            groups: groups(alloc, constant)?,
            cells: 1,
        },
        Op::Case(constant, target) => Operation::Case {
            arms: arms(alloc, constant, target)?,
        },
        Op::Call(depth, block, operands, is_function) => Operation::Call {
            depth,
            path: path(alloc, block)?,
            operands,
            is_function,
        },
        _ => Operation::Stmt,
    })
}

fn operation(alloc: Global, op: Op) -> Result<Operation, Fail> {
    Ok(match op {
        Op::Int(value) => Operation::Int { value },
        Op::Nil => Operation::Nil,
        Op::Empty => Operation::Empty,
        Op::Addr(offset) => Operation::Addr { depth: 0, offset },
        Op::At(depth, offset) => Operation::Addr { depth, offset },
        Op::FileAt(file) => Operation::FileAt { file },
        Op::Dup => Operation::Dup,
        Op::Load => Operation::Load,
        Op::Store => Operation::Store,
        Op::Clear(cells) => Operation::Clear { cells },
        Op::LoadMany(cells) => Operation::LoadMany { cells },
        Op::StoreMany(cells) => Operation::StoreMany { cells },
        Op::Offset(cells) => Operation::Offset { cells },
        Op::Index(low, high, size) => Operation::Index { low, high, size },
        Op::Follow => Operation::Follow,
        Op::Add => Operation::Add,
        Op::Sub => Operation::Sub,
        Op::Mul => Operation::Mul,
        Op::Div => Operation::Div,
        Op::Mod => Operation::Mod,
        Op::Neg => Operation::Neg,
        Op::Odd => Operation::Odd,
        Op::Not => Operation::Not,
        Op::And => Operation::And,
        Op::Or => Operation::Or,
        Op::Range(low, high, fault) => Operation::Range { low, high, fault },
        Op::Within(low, high) => Operation::Within { low, high },
        Op::Cmp(relation) => Operation::Cmp { relation },
        Op::Has => Operation::Has,
        Op::One => Operation::One,
        Op::Span => Operation::Span,
        Op::Union => Operation::Union,
        Op::Meet => Operation::Meet,
        Op::Less => Operation::Less,
        Op::Jump(target) => Operation::Jump { target },
        Op::False(target) => Operation::False { target },
        Op::Leave(depth, label) => Operation::Leave { depth, label },
        Op::CallBy(operands, is_function) => Operation::CallBy {
            operands,
            is_function,
        },
        Op::Return => Operation::Return { cell: None },
        Op::Result(cell) => Operation::Return { cell: Some(cell) },
        Op::New(cells) => Operation::New { cells },
        Op::Dispose => Operation::Dispose,
        Op::File(operation) => Operation::File { operation },
        _ => return long_operation(alloc, op),
    })
}

fn given(is_function: bool) -> u32 {
    if is_function { 1 } else { 0 }
}

// How many operands a file operation takes and puts.
fn effect_on_file(operation: FileOperation) -> (u32, u32) {
    match operation {
        FileOperation::Eof
        | FileOperation::Eoln
        | FileOperation::ReadInt
        | FileOperation::ReadChar => (1, 1),
        FileOperation::WriteInt
        | FileOperation::WriteChar
        | FileOperation::WriteBool
        | FileOperation::WriteChars => (3, 0),
        _ => (1, 0),
    }
}

// How many operands it takes and puts.
fn effect(op: Op) -> (u32, u32) {
    match op {
        Op::Int(_)
        | Op::Nil
        | Op::Empty
        | Op::Chars(_)
        | Op::Proc(_, _)
        | Op::Addr(_)
        | Op::At(_, _)
        | Op::FileAt(_) => (0, 1),
        Op::Dup => (1, 2),
        Op::Store | Op::StoreMany(_) | Op::Tag(_) => (2, 0),
        Op::Clear(_) | Op::False(_) | Op::Case(_, _) | Op::New(_) | Op::Dispose => (1, 0),
        Op::Load
        | Op::LoadMany(_)
        | Op::Offset(_)
        | Op::Follow
        | Op::Active(_, _)
        | Op::Choose(_, _)
        | Op::Neg
        | Op::Odd
        | Op::Not
        | Op::Range(_, _, _)
        | Op::Within(_, _) => (1, 1),
        Op::Span => (3, 1),
        Op::Stmt | Op::Jump(_) | Op::Leave(_, _) | Op::Return | Op::Result(_) => (0, 0),
        Op::Call(_, _, operands, is_function) => (operands, given(is_function)),
        Op::CallBy(operands, is_function) => (operands.saturating_add(1), given(is_function)),
        Op::File(operation) => effect_on_file(operation),
        _ => (2, 1),
    }
}

// The code of these operations, in one line as far as the depths go. Instruction k has the ordinal k.
pub fn code(
    alloc: Global,
    ops: &[Op],
    labels: &[(u32, u32)],
    frame: u32,
) -> Result<Arc<Code>, Fail> {
    let mut instructions = Vec::new(alloc);
    let mut depths = Vec::new(alloc);
    let mut depth = 0u32;
    let mut ordinal = 0u32;
    for op in ops {
        instructions.push(Instr {
            ordinal,
            operation: operation(alloc, *op)?,
        })?;
        depths.push(depth)?;
        let (takes, puts) = effect(*op);
        depth = depth.saturating_sub(takes).saturating_add(puts);
        ordinal = ordinal.saturating_add(1);
    }
    if instructions.len() > 1000 {
        return Err(Fail::new("a code of this test is short"));
    }
    let labels = Vec::from_slice(alloc, labels)?;
    match Code::check(instructions, depths, labels, frame, frame) {
        Ok(code) => Ok(Arc::new(alloc, code)?),
        Err(_) => Err(Fail::new("a code of this test has its shape")),
    }
}

// Loads the code of a block.
pub fn load(
    machine: &mut Machine,
    alloc: Global,
    block: u32,
    ops: &[Op],
    frame: u32,
) -> Result<(), Fail> {
    let path = path(alloc, block)?;
    let code = code(alloc, ops, &[], frame)?;
    if machine.has_code(&path) {
        return Err(Fail::new("a block of this test is loaded once"));
    }
    machine.load(path, code)?;
    Ok(())
}

// One step.
pub fn one_step(machine: &mut Machine) -> Came {
    match machine.step_where_ready() {
        Some(Gone::Went) => Came::Onward,
        Some(Gone::AtStatement(_)) => Came::Onward,
        Some(Gone::Ended) => Came::Ended,
        Some(Gone::Missing(_)) => Came::Missing,
        Some(Gone::Fault { no, place: _ }) => Came::Fault(no),
        Some(Gone::Limit { which, place: _ }) => Came::Limit(which),
        Some(Gone::Memory) => Came::Memory,
        None => Came::Unready,
    }
}

// At most so many steps: what they come to, and how many were made before that.
pub fn run(machine: &mut Machine, most: u32) -> (Came, u32) {
    let mut made = 0u32;
    for _ in 0..most {
        let now = one_step(machine);
        if now != Came::Onward {
            return (now, made);
        }
        made = made.saturating_add(1);
    }
    (Came::Onward, made)
}
