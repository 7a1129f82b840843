//! Columns picked out of order, and a slice, against what their parents held.
ghost use Rattle.std.specs.Prelude.{◌≡◌, pos};
ghost use Rattle.tree_model.specs.promise.TreeParts.{IsLive};
ghost use Rattle.raw_array.specs.promise.Members.{members_of};

use crate::columns::{self, slice, take_columns};
use buf_block::{BufView, make};
use raw_array::{ArrayParts, RawArray, ReleaseKind};
use std::alloc::Global;
use std::process::Abort;
use unit_pass::{Pass, SUPPLY, open_desk};

fn view(rt: &impl Abort, alloc: Global, bytes: &[u8], pass: &mut Pass) -> BufView {
    assert!(rt; pass.units() >= 1);
    match Vec::from_slice(alloc, bytes) {
        Ok(copy) => match make(alloc, copy, pass) {
            Ok(hold) => BufView {
                hold,
                start: 0,
                len: bytes.len(),
            },
            Err(_refused) => panic!(rt; "no memory"),
        },
        Err(_) => panic!(rt; "no memory"),
    }
}

/// A structure of an array whose children are released.
#[tactic(auto, using(crate::proofs::Vacant::vacant))]
fn array(
    rt: &impl Abort,
    alloc: Global,
    numbers: (i64, i64, i64),
    buffers: Vec<Option<BufView>>,
    places: usize,
    pass: &mut Pass,
) -> RawArray {
    assert!(rt; pass.units() >= 1);
    assert!(rt; buffers.len() <= 2);
    assert!(rt; places <= 3);
    let children = match columns::vacant_places(alloc, places) {
        Ok(children) => children,
        Err(_) => panic!(rt; "no memory"),
    };
    let parts = ArrayParts {
        length: numbers.0,
        null_count: numbers.1,
        offset: numbers.2,
        buffers,
        children,
        dictionary: None,
        kind: ReleaseKind::Exported,
    };
    match RawArray::build(alloc, parts, pass) {
        Ok(array) => array,
        Err(_refused) => panic!(rt; "no memory"),
    }
}

/// An int32 column of these items.
fn column(
    rt: &impl Abort,
    alloc: Global,
    validity: Option<&[u8]>,
    data: &[u8],
    numbers: (i64, i64, i64),
    pass: &mut Pass,
) -> RawArray {
    let mut buffers = match Vec::with_capacity(alloc, 2) {
        Ok(buffers) => buffers,
        Err(_) => panic!(rt; "no memory"),
    };
    let validity = match validity {
        None => None,
        Some(bytes) => Some(view(rt, alloc, bytes, pass)),
    };
    buffers.push_reserved(validity);
    let data = view(rt, alloc, data, pass);
    buffers.push_reserved(Some(data));
    array(rt, alloc, numbers, buffers, 0, pass)
}

/// A struct array over as many places for columns.
fn structure(
    rt: &impl Abort,
    alloc: Global,
    numbers: (i64, i64, i64),
    places: usize,
    pass: &mut Pass,
) -> RawArray {
    match columns::absent_validity(alloc) {
        Ok(buffers) => array(rt, alloc, numbers, buffers, places, pass),
        Err(_) => panic!(rt; "no memory"),
    }
}

/// Puts a column into its place.
#[tactic(auto, using(crate::proofs::Picked::picked))]
fn put(rt: &impl Abort, parent: &mut RawArray, i: usize, child: RawArray) {
    let mut child = child;
    assert!(rt; !parent.is_released());
    assert!(rt; i < 3);
    assert!(rt; parent.n_children() >= i as i64 + 1);
    assert!(rt; parent.child(i).is_released());
    assert!(rt; child.depth() <= 127);
    parent.put_child(i, &mut child);
    child.discard();
}

/// Its own length, null count and offset, and the first byte of its items.
#[tactic(auto, using(crate::proofs::Picked::picked))]
fn shown(rt: &impl Abort, array: &RawArray, i: i64) -> (i64, i64, i64, u8) {
    assert!(rt; !array.is_released());
    assert!(rt; i >= 0);
    assert!(rt; i < array.n_children());
    let child = array.child(i as usize);
    assert!(rt; !child.is_released());
    assert!(rt; child.n_buffers() == 2);
    let first = match child.buffer(1) {
        Some(data) => {
            assert!(rt; data.len() >= 1);
            data[0]
        }
        None => panic!(rt; "no items"),
    };
    (child.length(), child.null_count(), child.offset(), first)
}

/// An array of three items from the front on.
fn three_long(rt: &impl Abort, array: &RawArray)
    ensures live { IsLive array.now }
    ensures length { (members_of array.now).length ≡ pos 3 }
    ensures offset { (members_of array.now).offset ≡ pos 0 }
{
    assert!(rt; !array.is_released());
    assert!(rt; array.length() == 3);
    assert!(rt; array.offset() == 0);
}

/// The columns 2 and 0 of a struct array of offset 1 and length 2 over three columns.
#[tactic(auto, using(crate::proofs::Picked::picked))]
fn last_and_first(rt: &impl Abort, alloc: Global, array: RawArray, pass: &mut Pass) -> RawArray {
    assert!(rt; !array.is_released());
    assert!(rt; array.offset() == 1);
    assert!(rt; array.length() == 2);
    assert!(rt; array.n_children() == 3);
    three_long(rt, array.child(0));
    three_long(rt, array.child(2));
    assert!(rt; array.cost() <= 99);
    assert!(rt; pass.units() >= 1);
    assert!(rt; pass.units() + array.cost() <= SUPPLY);
    match take_columns(alloc, array, &[2, 0], pass) {
        Ok(columns) => columns,
        Err(_refused) => panic!(rt; "no memory"),
    }
}

/// The items 1 to 1 of an array.
#[tactic(auto, using(crate::proofs::Picked::picked))]
fn second_item(rt: &impl Abort, array: RawArray) -> RawArray {
    assert!(rt; !array.is_released());
    assert!(rt; array.offset() == 0);
    assert!(rt; array.length() == 2);
    slice(array, 1, 1)
}

fn end(rt: &impl Abort, array: RawArray, pass: &mut Pass) {
    let mut array = array;
    assert!(rt; array.cost() <= 99);
    assert!(rt; pass.units() + array.cost() <= SUPPLY);
    let _acted = array.release(pass);
    array.discard();
}

/// A struct array of offset 1 and length 2 over three columns, of which the last has a null.
fn three_columns(rt: &impl Abort, alloc: Global, pass: &mut Pass) -> RawArray {
    let mut parent = structure(rt, alloc, (2, -1, 1), 3, pass);
    let data: [u8; 12] = [7, 0, 0, 0, 8, 0, 0, 0, 9, 0, 0, 0];
    for i in 0..2 {
        let child = column(rt, alloc, None, &data, (3, 0, 0), pass);
        put(rt, &mut parent, i, child);
    }
    let nulls: [u8; 12] = [4, 0, 0, 0, 0, 0, 0, 0, 6, 0, 0, 0];
    let last = column(rt, alloc, Some(&[5]), &nulls, (3, 1, 0), pass);
    put(rt, &mut parent, 2, last);
    parent
}

/// The structure over the picked columns, and what each of them shows.
fn picked(rt: &impl Abort, columns: &RawArray) {
    assert!(rt; !columns.is_released());
    let numbers = (columns.length(), columns.null_count(), columns.offset());
    let parts = (columns.n_children(), columns.n_buffers());
    let kind = columns.release_kind();
    assert!(rt; (numbers, parts, kind) == ((2, 0, 0), (2, 1), Some(ReleaseKind::Assembled)));
    assert!(rt; shown(rt, columns, 0) == (2, -1, 1, 4));
    assert!(rt; shown(rt, columns, 1) == (2, 0, 1, 7));
}

#[test]
fn picked_columns_show_the_items_of_their_parent(rt: HostRuntime) {
    let alloc = rt.alloc();
    let (desk, mut pass) = open_desk();
    let parent = three_columns(&rt, alloc, &mut pass);
    let (blocks, nodes) = (pass.blocks(), pass.nodes());
    let columns = last_and_first(&rt, alloc, parent, &mut pass);
    assert!(&rt; (pass.blocks(), nodes, pass.nodes()) == (blocks, 4, 5));
    picked(&rt, &columns);
    end(&rt, columns, &mut pass);
    assert!(&rt; pass.units() == SUPPLY);
    let _audit = desk.close(pass);
}

/// A struct array of two items over one column, whose first item is null.
fn one_column(rt: &impl Abort, alloc: Global, pass: &mut Pass) -> RawArray {
    let mut parent = structure(rt, alloc, (2, 0, 0), 1, pass);
    let data: [u8; 8] = [0, 0, 0, 0, 5, 0, 0, 0];
    let only = column(rt, alloc, Some(&[2]), &data, (2, 1, 0), pass);
    put(rt, &mut parent, 0, only);
    parent
}

/// A slice of one item, and its column as it was.
fn sliced(rt: &impl Abort, second: &RawArray) {
    assert!(rt; !second.is_released());
    let numbers = (second.length(), second.null_count(), second.offset());
    assert!(rt; numbers == (1, 0, 1));
    assert!(rt; shown(rt, second, 0) == (2, 1, 0, 0));
}

#[test]
fn slice_keeps_its_children(rt: HostRuntime) {
    let alloc = rt.alloc();
    let (desk, mut pass) = open_desk();
    let parent = one_column(&rt, alloc, &mut pass);
    let second = second_item(&rt, parent);
    sliced(&rt, &second);
    end(&rt, second, &mut pass);
    assert!(&rt; pass.units() == SUPPLY);
    let _audit = desk.close(pass);
}
