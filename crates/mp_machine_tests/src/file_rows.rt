// Rows on files, and each row that comes to a disposed object: short codes, with what they come to.
use crate::ops::{Came, Op};
use crate::rows::{INPUT, OUTPUT, effect, outcome};
use mp_code::{FileOperation, Relation};
use std::alloc::Global;
use std::test::Fail;

#[test]
fn rows_on_files(rt: HostRuntime) -> Result<(), Fail> {
    let alloc = rt.alloc();
    let rows: [(&[Op], &[u8], Came, Option<i64>); 24] = [
        (
            &[OUTPUT, Op::File(FileOperation::WriteLine)],
            b"",
            Came::Ended,
            None,
        ),
        (
            &[OUTPUT, Op::File(FileOperation::Page)],
            b"",
            Came::Ended,
            None,
        ),
        (
            &[
                OUTPUT,
                Op::Int(5),
                Op::Int(3),
                Op::File(FileOperation::WriteInt),
            ],
            b"",
            Came::Ended,
            None,
        ),
        (
            &[
                OUTPUT,
                Op::Int(65),
                Op::Int(3),
                Op::File(FileOperation::WriteChar),
            ],
            b"",
            Came::Ended,
            None,
        ),
        (
            &[
                OUTPUT,
                Op::Int(1),
                Op::Int(3),
                Op::File(FileOperation::WriteBool),
            ],
            b"",
            Came::Ended,
            None,
        ),
        (
            &[
                OUTPUT,
                Op::Chars(b"hi"),
                Op::Int(2),
                Op::File(FileOperation::WriteChars),
            ],
            b"",
            Came::Ended,
            None,
        ),
        (
            &[
                OUTPUT,
                Op::File(FileOperation::Reset),
                OUTPUT,
                Op::File(FileOperation::WriteLine),
            ],
            b"",
            Came::Ended,
            None,
        ),
        (
            &[
                INPUT,
                Op::File(FileOperation::Rewrite),
                INPUT,
                Op::File(FileOperation::Get),
            ],
            b"a",
            Came::Ended,
            None,
        ),
        (
            &[
                INPUT,
                Op::File(FileOperation::ReadLine),
                Op::Addr(0),
                INPUT,
                Op::File(FileOperation::ReadInt),
                Op::Store,
            ],
            b"1\n2",
            Came::Ended,
            Some(2),
        ),
        (
            &[
                INPUT,
                Op::File(FileOperation::Get),
                Op::Addr(0),
                INPUT,
                Op::File(FileOperation::ReadChar),
                Op::Store,
            ],
            b"ab",
            Came::Ended,
            Some(98),
        ),
        // a file of its own: what is written is read
        (
            &[
                Op::Addr(2),
                Op::File(FileOperation::Rewrite),
                Op::Addr(2),
                Op::Int(42),
                Op::Int(5),
                Op::File(FileOperation::WriteInt),
                Op::Addr(2),
                Op::File(FileOperation::Reset),
                Op::Addr(0),
                Op::Addr(2),
                Op::File(FileOperation::ReadInt),
                Op::Store,
            ],
            b"",
            Came::Ended,
            Some(42),
        ),
        (
            &[
                Op::Addr(2),
                Op::File(FileOperation::Rewrite),
                Op::Addr(3),
                Op::Int(66),
                Op::Store,
                Op::Addr(2),
                Op::File(FileOperation::Put),
                Op::Addr(2),
                Op::File(FileOperation::Reset),
                Op::Addr(0),
                Op::Addr(2),
                Op::File(FileOperation::ReadChar),
                Op::Store,
            ],
            b"",
            Came::Ended,
            Some(66),
        ),
        (
            &[OUTPUT, Op::File(FileOperation::Put)],
            b"",
            Came::Fault(9),
            None,
        ),
        (
            &[
                OUTPUT,
                Op::Addr(4),
                Op::LoadMany(1),
                Op::Int(1),
                Op::File(FileOperation::WriteChars),
            ],
            b"",
            Came::Fault(9),
            None,
        ),
        (
            &[INPUT, Op::File(FileOperation::Get)],
            b"",
            Came::Fault(11),
            None,
        ),
        (
            &[INPUT, Op::File(FileOperation::ReadLine)],
            b"",
            Came::Fault(11),
            None,
        ),
        (
            &[INPUT, Op::File(FileOperation::WriteLine)],
            b"",
            Came::Fault(12),
            None,
        ),
        (
            &[INPUT, Op::File(FileOperation::Page)],
            b"",
            Came::Fault(12),
            None,
        ),
        // fault 12 comes before the buffer is read
        (
            &[Op::Addr(2), Op::File(FileOperation::Put)],
            b"",
            Came::Fault(12),
            None,
        ),
        // fault 14 and limit 3 come before fault 12
        (
            &[
                INPUT,
                Op::Int(5),
                Op::Int(0),
                Op::File(FileOperation::WriteInt),
            ],
            b"",
            Came::Fault(14),
            None,
        ),
        (
            &[
                INPUT,
                Op::Int(5),
                Op::Int(4097),
                Op::File(FileOperation::WriteBool),
            ],
            b"",
            Came::Limit(3),
            None,
        ),
        (
            &[
                INPUT,
                Op::Int(5),
                Op::Int(4096),
                Op::File(FileOperation::WriteChar),
            ],
            b"",
            Came::Fault(12),
            None,
        ),
        // a number that is no character
        (
            &[
                OUTPUT,
                Op::Int(256),
                Op::Int(1),
                Op::File(FileOperation::WriteChar),
            ],
            b"",
            Came::Unready,
            None,
        ),
        (&[Op::Addr(1), Op::New(1000000)], b"", Came::Limit(2), None),
    ];
    for (ops, input, wanted, number) in rows {
        let (came, found) = effect(alloc, ops, input)?;
        assert!(rt; came == wanted);
        assert!(rt; found == number);
    }
    Ok(())
}

// A reference to the second cell of an object of three, which is disposed of, and then these operations.
fn disposed(alloc: Global, ops: &[Op]) -> Result<(Came, Option<i64>), Fail> {
    let begin = [
        Op::Addr(1),
        Op::New(3),
        Op::Addr(1),
        Op::Load,
        Op::Follow,
        Op::Offset(1),
        Op::Addr(1),
        Op::Load,
        Op::Dispose,
    ];
    let mut whole = Vec::new(alloc);
    for op in begin {
        whole.push(op)?;
    }
    for op in ops {
        whole.push(*op)?;
    }
    whole.push(Op::Return)?;
    outcome(alloc, whole.as_slice(), b"")
}

#[test]
fn a_disposed_object_is_fault_8_at_each_row_that_comes_to_it(rt: HostRuntime) -> Result<(), Fail> {
    let alloc = rt.alloc();
    let rows: [&[Op]; 18] = [
        &[Op::Load, Op::False(11)],
        &[Op::Int(1), Op::Store],
        &[Op::Clear(1)],
        &[
            Op::LoadMany(1),
            Op::Chars(b"a"),
            Op::Cmp(Relation::Equal),
            Op::False(13),
        ],
        &[Op::Chars(b"a"), Op::StoreMany(1)],
        &[Op::Active(0, 1), Op::Clear(1)],
        &[Op::Choose(0, 1), Op::Clear(1)],
        &[Op::Int(1), Op::Tag(1)],
        &[Op::New(1)],
        &[Op::New(2000000)],
        &[
            Op::Addr(1),
            Op::Load,
            Op::Follow,
            Op::Clear(1),
            Op::Clear(1),
        ],
        &[Op::Addr(1), Op::Load, Op::Dispose, Op::Clear(1)],
        &[Op::File(FileOperation::Eof), Op::False(11)],
        &[Op::File(FileOperation::Get)],
        &[Op::File(FileOperation::Put)],
        &[Op::File(FileOperation::Rewrite)],
        &[Op::File(FileOperation::ReadChar), Op::False(11)],
        &[Op::File(FileOperation::WriteLine)],
    ];
    for ops in rows {
        let (came, _) = disposed(alloc, ops)?;
        assert!(rt; came == Came::Fault(8));
    }
    // to form a reference is no fault
    let (came, found) = disposed(
        alloc,
        &[
            Op::Offset(1),
            Op::Addr(0),
            Op::Int(7),
            Op::Store,
            Op::Clear(1),
        ],
    )?;
    assert!(rt; came == Came::Fault(8));
    assert!(rt; found == Some(7));
    Ok(())
}
