// Sets, cells under roots, and integers at their bounds, worked out by hand.
use mp_memory::{Cell, MemberSet, Store, difference, integer, negated, product, sum};
use std::alloc::Global;
use std::mem::size_of;
use std::test::Fail;

fn set(members: &[u8]) -> MemberSet {
    let mut set = MemberSet::empty();
    for member in members {
        set = set.with(*member);
    }
    set
}

fn members(alloc: Global, set: &MemberSet) -> Result<Vec<u8>, Fail> {
    let mut out = Vec::new(alloc);
    for member in 0..=255u8 {
        if set.has(member) {
            out.push(member)?;
        }
    }
    Ok(out)
}

#[test]
fn each_number_is_a_member_of_its_own(rt: HostRuntime) -> Result<(), Fail> {
    let alloc = rt.alloc();
    assert_eq!(rt;
        members(alloc, &MemberSet::empty())?.as_slice(),
        b"".as_slice()
    );
    for member in 0..=255u8 {
        assert_eq!(rt;
            members(alloc, &set(&[member]))?.as_slice(),
            [member].as_slice()
        );
    }
    Ok(())
}

#[test]
fn sets_are_joined_met_and_lessened_lane_by_lane(rt: HostRuntime) -> Result<(), Fail> {
    let alloc = rt.alloc();
    // two sets, their union, their intersection, their difference, and whether the first is in the second
    let rows: [(&[u8], &[u8], &[u8], &[u8], &[u8], bool); 9] = [
        (&[], &[], &[], &[], &[], true),
        (&[], &[0, 255], &[0, 255], &[], &[], true),
        (&[0, 255], &[], &[0, 255], &[], &[0, 255], false),
        (
            &[3, 70, 130, 200],
            &[3, 70, 130, 200],
            &[3, 70, 130, 200],
            &[3, 70, 130, 200],
            &[],
            true,
        ),
        (
            &[0, 63, 64, 127, 128, 191, 192, 255],
            &[63, 127, 191, 255],
            &[0, 63, 64, 127, 128, 191, 192, 255],
            &[63, 127, 191, 255],
            &[0, 64, 128, 192],
            false,
        ),
        // the two differ in one lane alone
        (&[1, 65], &[1, 65, 129], &[1, 65, 129], &[1, 65], &[], true),
        (&[1, 65], &[1, 66], &[1, 65, 66], &[1], &[65], false),
        (&[1, 130], &[1, 131], &[1, 130, 131], &[1], &[130], false),
        (&[1, 193], &[1, 194], &[1, 193, 194], &[1], &[193], false),
    ];
    for (i, (a, b, union, meet, less, within)) in rows.iter().enumerate() {
        let (a, b) = (set(a), set(b));
        assert_eq!(rt;
            members(alloc, &a.union(&b))?.as_slice(),
            *union,
            "union of row {i}"
        );
        assert_eq!(rt;
            members(alloc, &a.meet(&b))?.as_slice(),
            *meet,
            "meet of row {i}"
        );
        assert_eq!(rt;
            members(alloc, &a.less(&b))?.as_slice(),
            *less,
            "less of row {i}"
        );
        assert_eq!(rt; a.within(&b), *within, "within of row {i}");
    }
    Ok(())
}

// The number in a cell, or -1 where it is undefined and -2 where it is another value or no cell.
fn number(cell: Option<&Cell>) -> i64 {
    match cell {
        Some(Cell::Int(number)) => *number,
        Some(Cell::Undef) => -1,
        _ => -2,
    }
}

fn numbers(alloc: Global, cells: Option<&[Cell]>) -> Result<Vec<i64>, Fail> {
    let mut out = Vec::new(alloc);
    if let Some(cells) = cells {
        for cell in cells {
            out.push(number(Some(cell)))?;
        }
    }
    Ok(out)
}

#[test]
fn a_number_of_a_root_is_never_used_again(rt: HostRuntime) -> Result<(), Fail> {
    let alloc = rt.alloc();
    let mut store = Store::new(alloc);
    assert_eq!(rt; store.add(2)?, 0);
    assert_eq!(rt; store.add(1)?, 1);
    assert_eq!(rt;
        (
            store.is_live(1),
            store.drop_root(1),
            store.is_live(1),
            store.drop_root(1)
        ),
        (true, true, false, false)
    );
    assert_eq!(rt; store.add(1)?, 2);
    assert_eq!(rt; (store.drop_root(0), store.drop_root(9)), (true, false));
    assert_eq!(rt; store.add(0)?, 3);
    assert_eq!(rt;
        (
            number(store.get(0, 0)),
            number(store.get(1, 0)),
            number(store.get(2, 0)),
            number(store.get(3, 0))
        ),
        (-2, -2, -1, -2)
    );
    Ok(())
}

#[test]
fn cells_are_set_where_they_are(rt: HostRuntime) -> Result<(), Fail> {
    let alloc = rt.alloc();
    let mut store = Store::new(alloc);
    let first = store.add(3)?;
    let second = store.add(3)?;
    assert_eq!(rt;
        (
            store.set(first, 2, Cell::Int(7)),
            store.set(first, 3, Cell::Int(8)),
            store.set(5, 0, Cell::Int(9))
        ),
        (true, false, false)
    );
    assert_eq!(rt;
        numbers(alloc, store.part(first, 0, 3))?.as_slice(),
        [-1, -1, 7].as_slice()
    );
    assert_eq!(rt;
        numbers(alloc, store.part(second, 0, 3))?.as_slice(),
        [-1, -1, -1].as_slice()
    );
    assert!(rt; store.set(first, 0, Cell::Members(set(&[4, 200]))));
    let found = match store.get(first, 0) {
        Some(Cell::Members(found)) => found.copy(),
        _ => MemberSet::empty(),
    };
    assert_eq!(rt; members(alloc, &found)?.as_slice(), [4, 200].as_slice());
    Ok(())
}

#[test]
fn ranges_are_copied_whole_or_not_at_all(rt: HostRuntime) -> Result<(), Fail> {
    let alloc = rt.alloc();
    let mut store = Store::new(alloc);
    let root = store.add(5)?;
    let new = [Cell::Int(1), Cell::Int(2), Cell::Int(3)];
    assert_eq!(rt;
        (
            store.write(root, 1, &new),
            store.write(root, 3, &new),
            store.write(9, 0, &new)
        ),
        (true, false, false)
    );
    assert_eq!(rt;
        numbers(alloc, store.part(root, 0, 5))?.as_slice(),
        [-1, 1, 2, 3, -1].as_slice()
    );
    assert_eq!(rt;
        numbers(alloc, store.part(root, 2, 2))?.as_slice(),
        [2, 3].as_slice()
    );
    assert_eq!(rt;
        (
            store.part(root, 5, 0).is_some(),
            store.part(root, 5, 1).is_some(),
            store.part(root, 6, 0).is_some()
        ),
        (true, false, false)
    );
    assert_eq!(rt;
        (
            store.clear(root, 2, 1),
            store.clear(root, 4, 2),
            store.clear(root, 5, 0)
        ),
        (true, false, true)
    );
    assert_eq!(rt;
        numbers(alloc, store.part(root, 0, 5))?.as_slice(),
        [-1, 1, -1, 3, -1].as_slice()
    );
    Ok(())
}

#[test]
fn a_root_may_have_a_million_cells(rt: HostRuntime) -> Result<(), Fail> {
    let alloc = rt.alloc();
    let mut store = Store::new(alloc);
    let root = store.add(1_000_000)?;
    assert_eq!(rt;
        (
            store.set(root, 999_999, Cell::Int(5)),
            store.set(root, 1_000_000, Cell::Int(6))
        ),
        (true, false)
    );
    assert_eq!(rt; number(store.get(root, 999_999)), 5);
    assert!(rt; store.drop_root(root));
    Ok(())
}

#[test]
fn a_cell_takes_40_bytes(rt: HostRuntime) -> Result<(), Fail> {
    assert_eq!(rt; size_of::<Cell>(), 40);
    Ok(())
}

#[test]
fn results_are_integers_up_to_maxint(rt: HostRuntime) -> Result<(), Fail> {
    const MAX: i64 = 2_147_483_647;
    assert_eq!(rt;
        (sum(MAX - 1, 1), sum(MAX, 1), sum(-MAX, -1)),
        (Some(MAX), None, None)
    );
    assert_eq!(rt;
        (
            difference(-MAX, 0),
            difference(-MAX, 1),
            difference(0, -MAX)
        ),
        (Some(-MAX), None, Some(MAX))
    );
    assert_eq!(rt;
        (
            product(46_340, 46_341),
            product(46_341, 46_341),
            product(-1, MAX)
        ),
        (Some(2_147_441_940), None, Some(-MAX))
    );
    assert_eq!(rt;
        (
            product(i64::MIN, i64::MIN),
            sum(i64::MAX, i64::MAX),
            negated(i64::MIN)
        ),
        (None, None, None)
    );
    assert_eq!(rt;
        (
            negated(MAX),
            negated(-MAX),
            integer(0),
            integer(2_147_483_648)
        ),
        (Some(-MAX), Some(MAX), Some(0), None)
    );
    Ok(())
}
