// Calls, returns and leaves over several blocks, and the limits of a run.
use crate::ops::{Came, Op, code, load, one_step, run};
use mp_code::{FileOperation, RequiredFile};
use mp_machine::{Gone, Machine};
use mp_memory::Cell;
use std::test::Fail;

fn number(machine: &Machine, offset: u32) -> Option<i64> {
    match machine.store().get(1, offset) {
        Some(Cell::Int(n)) => Some(*n),
        _ => None,
    }
}

#[test]
fn a_call_leaves_the_operands_under_its_block(rt: HostRuntime) -> Result<(), Fail> {
    let alloc = rt.alloc();
    let main = [
        Op::Addr(1),
        Op::Int(5),
        Op::Store,
        Op::Addr(2),
        Op::Int(6),
        Op::Store,
        Op::Addr(0),
        Op::Int(10),
        Op::Addr(1),
        Op::LoadMany(2),
        Op::Call(0, 1, 1, true),
        Op::Add,
        Op::Store,
        Op::Return,
    ];
    let sum = [
        Op::At(1, 2),
        Op::At(1, 0),
        Op::Load,
        Op::At(1, 1),
        Op::Load,
        Op::Add,
        Op::Store,
        Op::Result(2),
    ];
    let mut machine = Machine::new(alloc, code(alloc, &main, &[], 3)?, b"")?;
    load(&mut machine, alloc, 1, &sum, 3)?;
    assert!(rt; run(&mut machine, 100) == (Came::Ended, 21));
    assert!(rt; number(&machine, 0) == Some(21));
    // what ended stays ended
    assert!(rt; one_step(&mut machine) == Came::Ended);
    Ok(())
}

#[test]
fn an_undefined_result_is_fault_9_where_the_function_was_called(
    rt: HostRuntime,
) -> Result<(), Fail> {
    let alloc = rt.alloc();
    let main = [Op::Addr(0), Op::Call(0, 1, 0, true), Op::Store, Op::Return];
    let mut machine = Machine::new(alloc, code(alloc, &main, &[], 1)?, b"")?;
    load(&mut machine, alloc, 1, &[Op::Result(0)], 1)?;
    assert!(rt; run(&mut machine, 2) == (Came::Onward, 2));
    for _ in 0..2u32 {
        match machine.step_where_ready() {
            Some(Gone::Fault { no, place }) => {
                assert!(rt; no == 9);
                assert!(rt; place.ordinal == 1);
                assert!(rt; place.path.steps().is_empty());
            }
            _ => return Err(Fail::new("the result is undefined")),
        }
    }
    Ok(())
}

#[test]
fn leave_ends_several_activations(rt: HostRuntime) -> Result<(), Fail> {
    let alloc = rt.alloc();
    let main = [
        Op::Call(0, 1, 0, false),
        Op::Return,
        Op::Addr(0),
        Op::Int(5),
        Op::Store,
        Op::Return,
    ];
    // the inner block is left from the middle of an expression
    let outer = [Op::Int(1), Op::Call(1, 2, 1, false), Op::Return];
    let inner = [Op::Call(0, 3, 0, true), Op::False(2), Op::Return];
    let other = [Op::Leave(0, 7), Op::Result(0)];
    let mut machine = Machine::new(alloc, code(alloc, &main, &[(7, 2)], 1)?, b"")?;
    load(&mut machine, alloc, 1, &outer, 1)?;
    load(&mut machine, alloc, 2, &inner, 1)?;
    load(&mut machine, alloc, 3, &other, 1)?;
    assert!(rt; run(&mut machine, 100) == (Came::Ended, 8));
    assert!(rt; number(&machine, 0) == Some(5));
    // the roots of the activations that ended are gone
    assert!(rt; machine.store().get(2, 0).is_none());
    assert!(rt; machine.store().get(3, 0).is_none());
    assert!(rt; machine.store().get(4, 0).is_none());
    Ok(())
}

#[test]
fn a_procedural_value_keeps_its_static_parent(rt: HostRuntime) -> Result<(), Fail> {
    let alloc = rt.alloc();
    // The outer block's value of the inner block is called from another block, whose activation is newer.
    let main = [Op::Int(42), Op::Call(0, 1, 1, false), Op::Return];
    let makes = [
        Op::Addr(1),
        Op::Proc(1, 2),
        Op::Store,
        Op::Call(0, 3, 0, false),
        Op::Return,
    ];
    let inner = [Op::Addr(0), Op::At(1, 0), Op::Load, Op::Store, Op::Return];
    let other = [Op::Addr(1), Op::Load, Op::CallBy(0, false), Op::Return];
    let mut machine = Machine::new(alloc, code(alloc, &main, &[], 2)?, b"")?;
    load(&mut machine, alloc, 1, &makes, 1)?;
    load(&mut machine, alloc, 2, &inner, 0)?;
    load(&mut machine, alloc, 3, &other, 1)?;
    let (came, _) = run(&mut machine, 100);
    assert!(rt; came == Came::Ended);
    assert!(rt; number(&machine, 0) == Some(42));
    Ok(())
}

#[test]
fn a_block_without_code_changes_nothing_until_it_is_loaded(rt: HostRuntime) -> Result<(), Fail> {
    let alloc = rt.alloc();
    let main = [Op::Int(3), Op::Call(0, 1, 1, false), Op::Return];
    let callee = [Op::Addr(0), Op::At(1, 0), Op::Load, Op::Store, Op::Return];
    let mut machine = Machine::new(alloc, code(alloc, &main, &[], 1)?, b"")?;
    assert!(rt; run(&mut machine, 9) == (Came::Missing, 1));
    assert!(rt; run(&mut machine, 9) == (Came::Missing, 0));
    load(&mut machine, alloc, 1, &callee, 1)?;
    assert!(rt; run(&mut machine, 100) == (Came::Ended, 6));
    assert!(rt; number(&machine, 0) == Some(3));
    Ok(())
}

#[test]
fn there_are_4096_activations(rt: HostRuntime) -> Result<(), Fail> {
    let alloc = rt.alloc();
    let call = [Op::Call(0, 1, 0, false), Op::Return];
    let mut machine = Machine::new(alloc, code(alloc, &call, &[], 1)?, b"")?;
    load(&mut machine, alloc, 1, &call, 1)?;
    // the program's activation and 4,095 more
    assert!(rt; run(&mut machine, 10000) == (Came::Limit(1), 4095));
    assert!(rt; machine.store().get(4096, 0).is_some());
    assert!(rt; machine.store().get(4097, 0).is_none());
    Ok(())
}

#[test]
fn limit_1_comes_before_limit_2(rt: HostRuntime) -> Result<(), Fail> {
    let alloc = rt.alloc();
    // 4,095 activations of 244 cells are 999,180, and the next one is one too many by both
    let call = [Op::Call(0, 1, 0, false), Op::Return];
    let mut machine = Machine::new(alloc, code(alloc, &call, &[], 700)?, b"")?;
    load(&mut machine, alloc, 1, &call, 244)?;
    assert!(rt; run(&mut machine, 10000) == (Came::Limit(1), 4095));
    // with one cell more each, limit 2 comes before the last of them
    let mut machine = Machine::new(alloc, code(alloc, &call, &[], 1000)?, b"")?;
    load(&mut machine, alloc, 1, &call, 1000)?;
    assert!(rt; run(&mut machine, 10000) == (Came::Limit(2), 999));
    Ok(())
}

#[test]
fn there_are_1000000_cells_and_large_blocks_are_copied(rt: HostRuntime) -> Result<(), Fail> {
    let alloc = rt.alloc();
    // A number goes to the start of the second half by way of a block of half a million cells.
    let main = [
        Op::Addr(0),
        Op::Int(9),
        Op::Store,
        Op::Addr(499990),
        Op::Addr(0),
        Op::LoadMany(499990),
        Op::StoreMany(499990),
        Op::Addr(1),
        Op::New(20),
        Op::Addr(1),
        Op::New(1),
        Op::Return,
    ];
    let mut machine = Machine::new(alloc, code(alloc, &main, &[], 999980)?, b"")?;
    assert!(rt; run(&mut machine, 100) == (Came::Limit(2), 10));
    assert!(rt; number(&machine, 499990) == Some(9));
    Ok(())
}

#[test]
fn a_block_of_1000000_cells_is_copied(rt: HostRuntime) -> Result<(), Fail> {
    let alloc = rt.alloc();
    let main = [
        Op::Addr(999999),
        Op::Int(9),
        Op::Store,
        Op::Addr(0),
        Op::Dup,
        Op::LoadMany(1000000),
        Op::StoreMany(1000000),
        Op::Return,
    ];
    let mut machine = Machine::new(alloc, code(alloc, &main, &[], 1000000)?, b"")?;
    assert!(rt; run(&mut machine, 100) == (Came::Ended, 7));
    assert!(rt; number(&machine, 999999) == Some(9));
    Ok(())
}

#[test]
fn too_many_cells_of_the_program_are_limit_2_at_the_first_step(
    rt: HostRuntime,
) -> Result<(), Fail> {
    let alloc = rt.alloc();
    let mut machine = Machine::new(alloc, code(alloc, &[Op::Return], &[], 1000001)?, b"")?;
    assert!(rt; one_step(&mut machine) == Came::Limit(2));
    assert!(rt; one_step(&mut machine) == Came::Limit(2));
    Ok(())
}

#[test]
fn a_run_writes_16777216_bytes(rt: HostRuntime) -> Result<(), Fail> {
    let alloc = rt.alloc();
    // fields of 4,096 bytes, until the next one would be too much
    let main = [
        Op::Stmt,
        Op::FileAt(RequiredFile::Output),
        Op::Int(65),
        Op::Int(4096),
        Op::File(FileOperation::WriteChar),
        Op::Jump(0),
        Op::Return,
    ];
    let mut machine = Machine::new(alloc, code(alloc, &main, &[], 0)?, b"")?;
    assert!(rt; run(&mut machine, 100000) == (Came::Limit(4), 4096 * 6 + 4));
    Ok(())
}
