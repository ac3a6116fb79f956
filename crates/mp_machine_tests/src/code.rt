// Codes that break one clause each, with the least index at which one fails.
use mp_base::Path;
use mp_code::{CaseArm, Code, FileOperation, Instr, Operation};
use sqlite_items::Items;
use std::alloc::{AllocError, Global};
use std::test::Fail;

// An operation of a row; `Case` has two arms.
#[derive(Clone, Copy)]
enum Op {
    Stmt,
    One,
    Add,
    Store,
    Jump(u32),
    False(u32),
    Case(u32, u32),
    Call(u32, bool),
    Leave,
    Return,
    ReadInt,
    WriteInt,
}

fn arms(alloc: Global, first: u32, second: u32) -> Result<Items<CaseArm>, AllocError> {
    let mut arms = Vec::new(alloc);
    arms.push(CaseArm {
        constant: 1,
        target: first,
    })?;
    arms.push(CaseArm {
        constant: 2,
        target: second,
    })?;
    Ok(Items::from_vec(arms))
}

fn operation(alloc: Global, op: Op) -> Result<Operation, Fail> {
    Ok(match op {
        Op::Stmt => Operation::Stmt,
        Op::One => Operation::Int { value: 1 },
        Op::Add => Operation::Add,
        Op::Store => Operation::Store,
        Op::Jump(target) => Operation::Jump { target },
        Op::False(target) => Operation::False { target },
        Op::Case(first, second) => Operation::Case {
            arms: arms(alloc, first, second)?,
        },
        Op::Call(operands, is_function) => Operation::Call {
            depth: 0,
            path: Path::top(alloc)?,
            operands,
            is_function,
        },
        Op::Leave => Operation::Leave { depth: 0, label: 7 },
        Op::Return => Operation::Return { cell: None },
        Op::ReadInt => Operation::File {
            operation: FileOperation::ReadInt,
        },
        Op::WriteInt => Operation::File {
            operation: FileOperation::WriteInt,
        },
    })
}

// The least index at which a clause fails in the code of these operations, depths and labels; a frame of 3 cells.
fn bad(
    alloc: Global,
    ops: &[Op],
    depths: &[u32],
    labels: &[(u32, u32)],
) -> Result<Option<u32>, Fail> {
    let mut instructions = Vec::new(alloc);
    for op in ops {
        instructions.push(Instr {
            ordinal: 0,
            operation: operation(alloc, *op)?,
        })?;
    }
    let depths = Vec::from_slice(alloc, depths)?;
    let labels = Vec::from_slice(alloc, labels)?;
    if instructions.len() > 100 {
        return Ok(None);
    }
    match Code::check(instructions, depths, labels, 3, 2) {
        Ok(_) => Ok(None),
        Err(bad) => Ok(Some(bad.at)),
    }
}

#[test]
fn codes_that_break_one_clause(rt: HostRuntime) -> Result<(), Fail> {
    let alloc = rt.alloc();
    let rows: [(&[Op], &[u32], &[(u32, u32)], Option<u32>); 24] = [
        // the one instruction Jump 5
        (&[Op::Jump(5)], &[0], &[], Some(0)),
        // right ones: a statement with a label, a loop, a call with an operand below, a case
        (&[Op::Stmt, Op::Return], &[0, 0], &[(7, 1)], None),
        (
            &[Op::One, Op::False(3), Op::Jump(0), Op::Return],
            &[0, 1, 0, 0],
            &[],
            None,
        ),
        (
            &[
                Op::One,
                Op::One,
                Op::Call(1, true),
                Op::Add,
                Op::Case(5, 5),
                Op::Return,
            ],
            &[0, 1, 2, 2, 1, 0],
            &[],
            None,
        ),
        // no instruction, too few depths, too many
        (&[], &[], &[], Some(0)),
        (&[], &[0, 0], &[(7, 3)], Some(0)),
        (&[Op::Return, Op::Return], &[0], &[], Some(1)),
        (&[Op::Return], &[0, 0], &[], Some(1)),
        // a successor that has no depth fails where it is led to
        (&[Op::Stmt, Op::Return], &[0], &[], Some(0)),
        // labels outside, of which the least counts, and one where an operand stands
        (&[Op::Return], &[0], &[(7, 9), (8, 4), (9, 6)], Some(4)),
        (
            &[Op::One, Op::False(2), Op::Return],
            &[0, 1, 0],
            &[(7, 1)],
            Some(1),
        ),
        // the least of a label and of an instruction
        (
            &[Op::Stmt, Op::Add, Op::Return],
            &[0, 0, 0],
            &[(7, 9)],
            Some(1),
        ),
        // targets one past the end
        (&[Op::Jump(1)], &[0], &[], Some(0)),
        (
            &[Op::One, Op::False(3), Op::Return],
            &[0, 1, 0],
            &[],
            Some(1),
        ),
        (
            &[Op::One, Op::Case(2, 3), Op::Return],
            &[0, 1, 0],
            &[],
            Some(1),
        ),
        // nothing follows, too few operands, another depth behind
        (&[Op::Stmt], &[0], &[], Some(0)),
        (&[Op::One, Op::Store, Op::Return], &[0, 1, 0], &[], Some(1)),
        (&[Op::One, Op::Return], &[0, 0], &[], Some(0)),
        // a function puts its result, a procedure nothing
        (&[Op::Call(0, true), Op::Return], &[0, 0], &[], Some(0)),
        (&[Op::Call(0, false), Op::Return], &[0, 0], &[], None),
        // operands at a statement, at a jump out of the block, at a return
        (
            &[Op::One, Op::Stmt, Op::False(3), Op::Return],
            &[0, 1, 1, 0],
            &[],
            Some(1),
        ),
        (&[Op::One, Op::Leave], &[0, 1], &[], Some(1)),
        // a read puts a number, a write takes three operands
        (
            &[Op::One, Op::ReadInt, Op::Return],
            &[0, 1, 0],
            &[],
            Some(1),
        ),
        (
            &[Op::One, Op::One, Op::One, Op::WriteInt, Op::Return],
            &[0, 1, 2, 3, 0],
            &[],
            None,
        ),
    ];
    for (i, (ops, depths, labels, want)) in rows.iter().enumerate() {
        assert_eq!(rt; bad(alloc, ops, depths, labels)?, *want, "row {i}");
    }
    Ok(())
}

#[test]
fn as_many_operands_as_there_may_be(rt: HostRuntime) -> Result<(), Fail> {
    let alloc = rt.alloc();
    let ops = [Op::Return, Op::Jump(1)];
    assert_eq!(rt; bad(alloc, &ops, &[0, 1_048_576], &[])?, None);
    assert_eq!(rt; bad(alloc, &ops, &[0, 1_048_577], &[])?, Some(1));
    Ok(())
}

#[test]
fn the_first_pair_of_a_label_counts(rt: HostRuntime) -> Result<(), Fail> {
    let alloc = rt.alloc();
    let mut instructions = Vec::new(alloc);
    for _ in 0..3 {
        instructions.push(Instr {
            ordinal: 4,
            operation: Operation::Return { cell: Some(1) },
        })?;
    }
    if instructions.len() > 3 {
        return Ok(());
    }
    let depths = Vec::from_slice(alloc, &[0, 0, 0])?;
    let labels = Vec::from_slice(alloc, &[(7, 2), (8, 0), (7, 1)])?;
    let code = Code::check(instructions, depths, labels, 3, 2);
    assert!(rt; code.is_ok());
    let Ok(code) = code else { return Ok(()) };
    assert_eq!(rt;
        (
            code.index_of_label(7),
            code.index_of_label(8),
            code.index_of_label(9)
        ),
        (Some(2), Some(0), None)
    );
    assert_eq!(rt;
        (
            code.instructions().len(),
            code.depths().len(),
            code.frame(),
            code.counted()
        ),
        (3, 3, 3, 2)
    );
    Ok(())
}
