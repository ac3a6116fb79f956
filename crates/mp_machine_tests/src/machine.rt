// A machine as it begins, and what is seen of it from outside.
use mp_base::{Name, Path};
use mp_code::{Code, Instr, Operation};
use mp_machine::Machine;
use mp_memory::Cell;
use std::alloc::Global;
use std::sync::Arc;
use std::test::Fail;

// A block that returns at once, with a frame of so many cells.
fn code(alloc: Global, frame: u32) -> Result<Arc<Code>, Fail> {
    let mut instructions = Vec::new(alloc);
    instructions.push(Instr {
        ordinal: 7,
        operation: Operation::Return { cell: None },
    })?;
    let mut depths = Vec::new(alloc);
    depths.push(0)?;
    match Code::check(instructions, depths, Vec::new(alloc), frame, frame) {
        Ok(code) => Ok(Arc::new(alloc, code)?),
        Err(_) => Err(Fail::new("the code has its shape")),
    }
}

fn is_file(cell: Option<&Cell>, number: u64) -> bool {
    matches!(cell, Some(Cell::FileNo(k)) if *k == number)
}

fn is_undefined(cell: Option<&Cell>) -> bool {
    matches!(cell, Some(Cell::Undef))
}

#[test]
fn input_and_output_and_their_buffers_are_four_cells_of_a_root_of_their_own(
    rt: HostRuntime,
) -> Result<(), Fail> {
    let alloc = rt.alloc();
    // the input, and the number in the buffer of `input`
    let rows: [(&[u8], Option<i64>); 3] = [(b"", None), (b"a", Some(97)), (b"\n", Some(32))];
    for (input, buffer) in rows {
        let machine = Machine::new(alloc, code(alloc, 3)?, input)?;
        let store = machine.store();
        assert!(rt; is_file(store.get(0, 0), 0));
        assert!(rt;
            match (store.get(0, 1), buffer) {
                (Some(Cell::Int(n)), Some(b)) => *n == b,
                (Some(Cell::Undef), None) => true,
                _ => false,
            }
        );
        assert!(rt; is_file(store.get(0, 2), 1));
        assert!(rt; is_undefined(store.get(0, 3)));
        assert!(rt; store.get(0, 4).is_none());
    }
    Ok(())
}

#[test]
fn the_programs_cells_are_undefined_and_there_is_no_object(rt: HostRuntime) -> Result<(), Fail> {
    let alloc = rt.alloc();
    let machine = Machine::new(alloc, code(alloc, 2)?, b"")?;
    assert!(rt; is_undefined(machine.store().get(1, 0)));
    assert!(rt; is_undefined(machine.store().get(1, 1)));
    assert!(rt; machine.store().get(1, 2).is_none());
    assert!(rt; machine.store().get(2, 0).is_none());
    for number in 0..3u64 {
        assert!(rt; machine.object(number).is_none());
    }
    Ok(())
}

#[test]
fn loading_a_block_leaves_the_cells(rt: HostRuntime) -> Result<(), Fail> {
    let alloc = rt.alloc();
    let mut machine = Machine::new(alloc, code(alloc, 1)?, b"x")?;
    let name = Name::new(alloc, b"p")?;
    let path = Path::top(alloc)?.child(&name, 1)?;
    machine.load(path, code(alloc, 5)?)?;
    assert!(rt; is_undefined(machine.store().get(1, 0)));
    assert!(rt; machine.store().get(1, 1).is_none());
    assert!(rt; machine.store().get(2, 0).is_none());
    Ok(())
}
