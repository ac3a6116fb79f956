// Each row of the machine's table and each fault: short codes, with what they come to.
use crate::ops::{Came, Op, code, run};
use mp_code::{FileOperation, RangeFault, Relation, RequiredFile};
use mp_machine::Machine;
use mp_memory::Cell;
use std::alloc::Global;
use std::test::Fail;

pub const INPUT: Op = Op::FileAt(RequiredFile::Input);

pub const OUTPUT: Op = Op::FileAt(RequiredFile::Output);

// What the operations come to, in a program with eight cells, and the number in the first of these.
pub fn outcome(alloc: Global, ops: &[Op], input: &[u8]) -> Result<(Came, Option<i64>), Fail> {
    let mut machine = Machine::new(alloc, code(alloc, ops, &[], 8)?, input)?;
    let (came, _) = run(&mut machine, 100);
    match machine.store().get(1, 0) {
        Some(Cell::Int(n)) => Ok((came, Some(*n))),
        _ => Ok((came, None)),
    }
}

// The operations put a number, which becomes the first cell.
fn value(alloc: Global, ops: &[Op], input: &[u8]) -> Result<(Came, Option<i64>), Fail> {
    let mut whole = Vec::new(alloc);
    whole.push(Op::Addr(0))?;
    for op in ops {
        whole.push(*op)?;
    }
    whole.push(Op::Store)?;
    whole.push(Op::Return)?;
    outcome(alloc, whole.as_slice(), input)
}

pub fn effect(alloc: Global, ops: &[Op], input: &[u8]) -> Result<(Came, Option<i64>), Fail> {
    let mut whole = Vec::new(alloc);
    for op in ops {
        whole.push(*op)?;
    }
    whole.push(Op::Return)?;
    outcome(alloc, whole.as_slice(), input)
}

#[test]
fn rows_that_put_a_number(rt: HostRuntime) -> Result<(), Fail> {
    let alloc = rt.alloc();
    let rows: [(&[Op], i64); 40] = [
        (&[Op::Int(7), Op::Int(5), Op::Add], 12),
        (&[Op::Int(7), Op::Int(9), Op::Sub], -2),
        (&[Op::Int(3), Op::Int(-4), Op::Mul], -12),
        (&[Op::Int(-7), Op::Int(2), Op::Div], -3),
        (&[Op::Int(-7), Op::Int(3), Op::Mod], 2),
        (&[Op::Int(5), Op::Neg], -5),
        (&[Op::Int(-3), Op::Odd], 1),
        (&[Op::Int(4), Op::Odd], 0),
        (&[Op::Int(0), Op::Not], 1),
        (&[Op::Int(1), Op::Int(0), Op::And], 0),
        (&[Op::Int(1), Op::Int(1), Op::And], 1),
        (&[Op::Int(1), Op::Int(0), Op::Or], 1),
        (&[Op::Int(0), Op::Int(0), Op::Or], 0),
        (&[Op::Int(4), Op::Dup, Op::Mul], 16),
        (&[Op::Int(3), Op::Range(1, 3, RangeFault::OutsideType)], 3),
        (&[Op::Int(1), Op::Int(2), Op::Cmp(Relation::Less)], 1),
        (&[Op::Int(2), Op::Int(2), Op::Cmp(Relation::Less)], 0),
        (&[Op::Int(2), Op::Int(2), Op::Cmp(Relation::LessOrEqual)], 1),
        (&[Op::Int(2), Op::Int(3), Op::Cmp(Relation::Equal)], 0),
        (&[Op::Int(2), Op::Int(3), Op::Cmp(Relation::NotEqual)], 1),
        (&[Op::Int(2), Op::Int(3), Op::Cmp(Relation::Greater)], 0),
        (
            &[Op::Int(3), Op::Int(3), Op::Cmp(Relation::GreaterOrEqual)],
            1,
        ),
        (&[Op::Nil, Op::Nil, Op::Cmp(Relation::Equal)], 1),
        (
            &[Op::Chars(b"ab"), Op::Chars(b"ac"), Op::Cmp(Relation::Less)],
            1,
        ),
        (
            &[Op::Chars(b"ab"), Op::Chars(b"aa"), Op::Cmp(Relation::Less)],
            0,
        ),
        (
            &[
                Op::Empty,
                Op::Empty,
                Op::Int(1),
                Op::One,
                Op::Cmp(Relation::LessOrEqual),
            ],
            1,
        ),
        (
            &[
                Op::Empty,
                Op::Empty,
                Op::Int(1),
                Op::One,
                Op::Cmp(Relation::GreaterOrEqual),
            ],
            0,
        ),
        (&[Op::Int(3), Op::Empty, Op::Int(3), Op::One, Op::Has], 1),
        (&[Op::Int(300), Op::Empty, Op::Int(44), Op::One, Op::Has], 0),
        (
            &[
                Op::Int(255),
                Op::Empty,
                Op::Int(254),
                Op::Int(255),
                Op::Span,
                Op::Has,
            ],
            1,
        ),
        (
            &[
                Op::Int(2),
                Op::Empty,
                Op::Int(2),
                Op::Int(1),
                Op::Span,
                Op::Has,
            ],
            0,
        ),
        (
            &[
                Op::Int(2),
                Op::Empty,
                Op::Int(1),
                Op::One,
                Op::Empty,
                Op::Int(2),
                Op::One,
                Op::Union,
                Op::Has,
            ],
            1,
        ),
        (
            &[
                Op::Int(1),
                Op::Empty,
                Op::Int(1),
                Op::One,
                Op::Empty,
                Op::Int(2),
                Op::One,
                Op::Meet,
                Op::Has,
            ],
            0,
        ),
        (
            &[
                Op::Int(1),
                Op::Empty,
                Op::Int(1),
                Op::One,
                Op::Empty,
                Op::Int(1),
                Op::One,
                Op::Less,
                Op::Has,
            ],
            0,
        ),
        (
            &[
                Op::Int(5),
                Op::Empty,
                Op::Int(5),
                Op::One,
                Op::Within(0, 5),
                Op::Has,
            ],
            1,
        ),
        (&[INPUT, Op::File(FileOperation::Eof)], 0),
        (&[OUTPUT, Op::File(FileOperation::Eof)], 1),
        (&[INPUT, Op::File(FileOperation::Eoln)], 0),
        (&[INPUT, Op::File(FileOperation::ReadInt)], 12),
        (&[INPUT, Op::File(FileOperation::ReadChar)], 49),
    ];
    for (ops, wanted) in rows {
        let (came, found) = value(alloc, ops, b"12\n34")?;
        assert!(rt; came == Came::Ended);
        assert!(rt; found == Some(wanted));
    }
    Ok(())
}

#[test]
fn faults_in_the_middle_of_an_expression(rt: HostRuntime) -> Result<(), Fail> {
    let alloc = rt.alloc();
    let rows: [(&[Op], &[u8], Came); 28] = [
        (
            &[Op::Int(2147483647), Op::Int(1), Op::Add],
            b"",
            Came::Fault(1),
        ),
        (
            &[Op::Int(-2147483647), Op::Int(1), Op::Sub],
            b"",
            Came::Fault(1),
        ),
        (
            &[Op::Int(65536), Op::Int(65536), Op::Mul],
            b"",
            Came::Fault(1),
        ),
        (
            &[INPUT, Op::File(FileOperation::ReadInt)],
            b"99999999999",
            Came::Fault(1),
        ),
        (&[Op::Int(7), Op::Int(0), Op::Div], b"", Came::Fault(2)),
        (&[Op::Int(7), Op::Int(0), Op::Mod], b"", Came::Fault(2)),
        (&[Op::Int(7), Op::Int(-3), Op::Mod], b"", Came::Fault(2)),
        (
            &[Op::Int(4), Op::Range(1, 3, RangeFault::OutsideType)],
            b"",
            Came::Fault(3),
        ),
        (
            &[
                Op::Int(1),
                Op::Empty,
                Op::Int(5),
                Op::One,
                Op::Within(0, 4),
                Op::Has,
            ],
            b"",
            Came::Fault(3),
        ),
        (
            &[Op::Int(0), Op::Range(1, 3, RangeFault::OutsideBounds)],
            b"",
            Came::Fault(4),
        ),
        (
            &[Op::Addr(1), Op::Int(4), Op::Index(1, 3, 1), Op::Load],
            b"",
            Came::Fault(4),
        ),
        (
            &[Op::Int(256), Op::Range(0, 255, RangeFault::NoSuchValue)],
            b"",
            Came::Fault(6),
        ),
        (&[Op::Nil, Op::Follow, Op::Load], b"", Came::Fault(7)),
        (&[Op::Addr(3), Op::Load], b"", Came::Fault(9)),
        (
            &[
                Op::Addr(3),
                Op::LoadMany(2),
                Op::Chars(b"ab"),
                Op::Cmp(Relation::Equal),
            ],
            b"",
            Came::Fault(9),
        ),
        (
            &[INPUT, Op::File(FileOperation::ReadChar)],
            b"",
            Came::Fault(11),
        ),
        (
            &[INPUT, Op::File(FileOperation::ReadInt)],
            b" \n ",
            Came::Fault(11),
        ),
        (
            &[INPUT, Op::File(FileOperation::Eoln)],
            b"",
            Came::Fault(11),
        ),
        (
            &[OUTPUT, Op::File(FileOperation::ReadChar)],
            b"",
            Came::Fault(12),
        ),
        (
            &[OUTPUT, Op::File(FileOperation::ReadInt)],
            b"",
            Came::Fault(12),
        ),
        (
            &[OUTPUT, Op::File(FileOperation::Eoln)],
            b"",
            Came::Fault(12),
        ),
        (
            &[Op::Addr(2), Op::File(FileOperation::Eof)],
            b"",
            Came::Fault(12),
        ),
        (
            &[INPUT, Op::File(FileOperation::ReadInt)],
            b"x",
            Came::Fault(13),
        ),
        (
            &[Op::Int(3), Op::Empty, Op::Int(256), Op::One, Op::Has],
            b"",
            Came::Fault(15),
        ),
        (
            &[Op::Int(3), Op::Empty, Op::Int(-1), Op::One, Op::Has],
            b"",
            Came::Fault(15),
        ),
        (
            &[
                Op::Int(3),
                Op::Empty,
                Op::Int(1),
                Op::Int(256),
                Op::Span,
                Op::Has,
            ],
            b"",
            Came::Fault(15),
        ),
        // a number where a pointer is wanted, and a set where a number is
        (&[Op::Int(3), Op::Follow, Op::Load], b"", Came::Unready),
        (&[Op::Empty, Op::Neg], b"", Came::Unready),
    ];
    for (ops, input, wanted) in rows {
        let (came, found) = value(alloc, ops, input)?;
        assert!(rt; came == wanted);
        assert!(rt; found.is_none());
    }
    Ok(())
}

#[test]
fn rows_on_variables_jumps_and_objects(rt: HostRuntime) -> Result<(), Fail> {
    let alloc = rt.alloc();
    let rows: [(&[Op], Came, Option<i64>); 19] = [
        (
            &[Op::Stmt, Op::Addr(0), Op::Int(5), Op::Store],
            Came::Ended,
            Some(5),
        ),
        (
            &[
                Op::Addr(1),
                Op::Int(5),
                Op::Store,
                Op::Addr(0),
                Op::Addr(1),
                Op::Load,
                Op::Store,
            ],
            Came::Ended,
            Some(5),
        ),
        (
            &[
                Op::Addr(0),
                Op::Int(5),
                Op::Store,
                Op::Addr(0),
                Op::Clear(1),
            ],
            Came::Ended,
            None,
        ),
        (
            &[
                Op::Addr(1),
                Op::Int(5),
                Op::Store,
                Op::Addr(0),
                Op::Addr(1),
                Op::LoadMany(2),
                Op::StoreMany(2),
            ],
            Came::Ended,
            Some(5),
        ),
        (
            &[Op::Addr(0), Op::Chars(b"A"), Op::StoreMany(1)],
            Came::Ended,
            Some(65),
        ),
        (
            &[
                Op::Addr(2),
                Op::Int(5),
                Op::Store,
                Op::Addr(0),
                Op::Addr(1),
                Op::Offset(1),
                Op::Load,
                Op::Store,
            ],
            Came::Ended,
            Some(5),
        ),
        (
            &[
                Op::Addr(0),
                Op::Int(3),
                Op::Index(3, 5, 1),
                Op::Int(8),
                Op::Store,
            ],
            Came::Ended,
            Some(8),
        ),
        (
            &[
                Op::Addr(0),
                Op::Int(2),
                Op::Store,
                Op::Addr(0),
                Op::Active(0, 2),
                Op::Int(4),
                Op::Store,
            ],
            Came::Ended,
            Some(4),
        ),
        (
            &[
                Op::Addr(0),
                Op::Int(2),
                Op::Store,
                Op::Addr(0),
                Op::Active(0, 3),
                Op::Int(4),
                Op::Store,
            ],
            Came::Fault(10),
            Some(2),
        ),
        (
            &[Op::Addr(0), Op::Active(0, 3), Op::Int(4), Op::Store],
            Came::Fault(10),
            None,
        ),
        (
            &[
                Op::Addr(1),
                Op::Addr(0),
                Op::Choose(0, 7),
                Op::Load,
                Op::Store,
            ],
            Came::Ended,
            Some(7),
        ),
        (&[Op::Addr(0), Op::Int(3), Op::Tag(3)], Came::Ended, Some(3)),
        // a value of another group: the cell behind the tag is undefined
        (
            &[
                Op::Addr(1),
                Op::Int(5),
                Op::Tag(5),
                Op::Addr(2),
                Op::Int(9),
                Op::Store,
                Op::Addr(1),
                Op::Int(6),
                Op::Tag(5),
                Op::Addr(0),
                Op::Addr(2),
                Op::Load,
                Op::Store,
            ],
            Came::Fault(9),
            None,
        ),
        (
            &[Op::Int(0), Op::False(5), Op::Addr(0), Op::Int(1), Op::Store],
            Came::Ended,
            None,
        ),
        (
            &[Op::Int(1), Op::False(5), Op::Addr(0), Op::Int(1), Op::Store],
            Came::Ended,
            Some(1),
        ),
        (
            &[
                Op::Jump(4),
                Op::Addr(0),
                Op::Int(1),
                Op::Store,
                Op::Addr(1),
                Op::Clear(1),
            ],
            Came::Ended,
            None,
        ),
        (
            &[
                Op::Int(3),
                Op::Case(3, 2),
                Op::Addr(0),
                Op::Int(1),
                Op::Store,
            ],
            Came::Ended,
            Some(1),
        ),
        (
            &[
                Op::Int(3),
                Op::Case(4, 2),
                Op::Addr(0),
                Op::Int(1),
                Op::Store,
            ],
            Came::Fault(5),
            None,
        ),
        (
            &[
                Op::Addr(1),
                Op::New(2),
                Op::Addr(1),
                Op::Load,
                Op::Follow,
                Op::Int(5),
                Op::Store,
                Op::Addr(0),
                Op::Addr(1),
                Op::Load,
                Op::Follow,
                Op::Load,
                Op::Store,
                Op::Addr(1),
                Op::Load,
                Op::Dispose,
            ],
            Came::Ended,
            Some(5),
        ),
    ];
    for (ops, wanted, number) in rows {
        let (came, found) = effect(alloc, ops, b"")?;
        assert!(rt; came == wanted);
        assert!(rt; found == number);
    }
    Ok(())
}
