//! Columns that are taken out of a table. Where an allocation is refused, the table comes back as it was.
ghost use Rattle.std.specs.Prelude.{◌≡◌, pos};
ghost use Rattle.tree_model.specs.promise.TreeParts.{IsLive};
ghost use Rattle.raw_array.specs.promise.Members.{members_of};

use arr_move::take_columns;
use raw_array::RawArray;
use std::alloc::Global;
use std::process::Abort;
use test_parts::{Items, array};
use unit_pass::{Pass, SUPPLY, open_desk};

/// An array of two items.
fn two_items(
    rt: &impl Abort,
    alloc: Global,
    bytes: &[Option<&[u8]>],
    children: Vec<RawArray>,
    pass: &mut Pass,
) -> RawArray {
    let items = Items {
        length: 2,
        null_count: 0,
        offset: 0,
    };
    array(alloc, items, bytes, children, None, pass).expect(rt, "no memory")
}

/// A table of two rows and three columns of bytes.
fn table(rt: &impl Abort, alloc: Global, pass: &mut Pass) -> RawArray {
    let mut columns = Vec::new(alloc);
    for bytes in [[7u8, 70], [8, 80], [9, 90]] {
        let column = two_items(rt, alloc, &[None, Some(&bytes)], Vec::new(alloc), pass);
        columns.push(column).expect(rt, "no memory");
    }
    two_items(rt, alloc, &[None], columns, pass)
}

fn has_two_items(rt: &impl Abort, array: &RawArray)
    ensures live { IsLive array.now }
    ensures length { (members_of array.now).length ≡ pos 2 }
    ensures offset { (members_of array.now).offset ≡ pos 0 }
{
    assert!(rt; !array.is_released());
    assert!(rt; array.length() == 2);
    assert!(rt; array.offset() == 0);
}

/// The last and the first column of a table of three; the table where memory ran out.
#[tactic(auto, using(arr_move::proofs::Picked::picked))]
fn last_and_first(
    rt: &impl Abort,
    alloc: Global,
    table: RawArray,
    pass: &mut Pass,
) -> Result<RawArray, RawArray> {
    has_two_items(rt, &table);
    assert!(rt; table.n_children() == 3);
    has_two_items(rt, table.child(0));
    has_two_items(rt, table.child(2));
    assert!(rt; table.cost() <= 99);
    assert!(rt; pass.units() >= 1);
    assert!(rt; pass.units() + table.cost() <= SUPPLY);
    match take_columns(alloc, table, &[2, 0], pass) {
        Ok(columns) => Ok(columns),
        Err((table, _)) => Err(table),
    }
}

/// Whether a table has these columns, each told by its bytes.
#[tactic(auto, using(arr_move::proofs::Picked::picked))]
fn has_columns(rt: &impl Abort, table: &RawArray, columns: &[[u8; 2]]) -> bool {
    has_two_items(rt, table);
    if table.n_children() != columns.len() as i64 {
        return false;
    }
    for k in 0..columns.len() {
        let column = table.child(k);
        has_two_items(rt, column);
        assert!(rt; column.n_buffers() == 2);
        if column.buffer(1) != Some(columns[k].as_slice()) {
            return false;
        }
    }
    true
}

#[test]
fn columns_are_taken_or_the_table_comes_back(rt: HostRuntime) {
    let alloc = rt.alloc();
    let (desk, mut pass) = open_desk();
    let parent = table(&rt, alloc, &mut pass);
    let made = (pass.blocks(), pass.nodes());
    let tree = match last_and_first(&rt, alloc, parent, &mut pass) {
        Ok(columns) => {
            assert!(&rt; made == (3, 4) && (pass.blocks(), pass.nodes()) == (3, 5));
            assert!(&rt; has_columns(&rt, &columns, &[[9, 90], [7, 70]]));
            columns
        }
        Err(parent) => {
            assert!(&rt; made == (3, 4) && (pass.blocks(), pass.nodes()) == (3, 4));
            assert!(&rt; has_columns(&rt, &parent, &[[7, 70], [8, 80], [9, 90]]));
            parent
        }
    };
    assert!(&rt; tree.cost() <= 99);
    assert!(&rt; pass.units() + tree.cost() <= SUPPLY);
    tree.end(&mut pass);
    assert!(&rt; pass.units() == SUPPLY);
    let _audit = desk.close(pass);
}
