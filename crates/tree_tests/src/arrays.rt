//! Arrays of several levels: shared, windowed, taken apart and released, with the units that come back counted.
ghost use Rattle.std.specs.Prelude.{◌≡◌, ◌+◌, ◌<◌, ◌≤◌, length};
ghost use Rattle.tree_model.specs.promise.TreeParts.{IsLive, children_of};
ghost use Rattle.tree_model.specs.promise.TreeData.{trees};
ghost use Rattle.raw_array.specs.promise.Members.{Cost, members_of};
ghost use Rattle.raw_array.specs.Members.{cost_of_all};

use raw_array::{Acted, ArrayParts, Gone, PartlyMoved, RawArray, ReleaseKind, release_all};
use std::alloc::Global;
use std::process::Abort;
use test_parts::{Items, array, built};
use unit_pass::{Audit, Desk, Pass, SUPPLY, open_desk};

/// A column of whole numbers of 32 bits, this many of them null, without a validity buffer.
fn numbers(rt: &impl Abort, alloc: Global, bytes: &[u8], nulls: i64, pass: &mut Pass) -> RawArray
    ensures { IsLive result }
{
    let items = Items {
        length: bytes.len() as i64 / 4,
        null_count: nulls,
        offset: 0,
    };
    let made = array(
        alloc,
        items,
        &[None, Some(bytes)],
        Vec::new(alloc),
        None,
        pass,
    );
    made.expect(rt, "no memory")
}

fn column(rt: &impl Abort, alloc: Global, bytes: &[u8], pass: &mut Pass) -> RawArray
    ensures { IsLive result }
{
    numbers(rt, alloc, bytes, 0, pass)
}

/// A structure over children, without a validity buffer.
fn top_over(
    rt: &impl Abort,
    alloc: Global,
    children: Vec<RawArray>,
    dictionary: Option<RawArray>,
    pass: &mut Pass,
) -> RawArray
    ensures { IsLive result }
{
    let mut buffers = Vec::new(alloc);
    buffers.push(None).expect(rt, "no memory");
    let parts = ArrayParts {
        length: 1,
        null_count: 1,
        offset: 0,
        buffers,
        children,
        dictionary,
        kind: ReleaseKind::Assembled,
    };
    built(alloc, parts, pass).expect(rt, "no memory")
}

/// The units that the release of a tree gives back.
fn given_back(rt: &impl Abort, tree: RawArray, pass: &mut Pass) -> u64 {
    let mut tree = tree;
    let before = pass.units();
    assert!(rt; tree.cost() <= SUPPLY - before);
    assert_eq!(rt; tree.release(pass), Acted::Acted);
    assert_eq!(rt; tree.release(pass), Acted::Was);
    tree.discard();
    pass.units() - before
}

fn begun(rt: &impl Abort, tree: RawArray, pass: &Pass) -> PartlyMoved
    ensures room { pass.now.units + Cost result ≤ SUPPLY }
    ensures places { 2 ≤ length (children_of result) }
{
    assert!(rt; !tree.is_released());
    assert!(rt; tree.cost() <= SUPPLY - pass.units());
    assert!(rt; tree.n_children() >= 2);
    PartlyMoved::begin(tree)
}

/// The units that the end of a partly moved tree gives back.
fn finished(moved: PartlyMoved, pass: &mut Pass) -> u64
    requires { pass.old.units + Cost moved ≤ SUPPLY }
{
    let before = pass.units();
    moved.finish(pass);
    pass.units() - before
}

fn taken(rt: &impl Abort, moved: &mut PartlyMoved, i: usize) -> RawArray
    requires { i < length (children_of moved.old) }
    ensures parted { Cost moved.new + Cost result ≡ Cost moved.old }
    ensures places { length (children_of moved.new) ≡ length (children_of moved.old) }
{
    match moved.take_child(i) {
        Ok(child) => child,
        Err(_gone) => panic!(rt; "gone"),
    }
}

fn taken_dictionary(rt: &impl Abort, moved: &mut PartlyMoved) -> RawArray
    ensures parted { Cost moved.new + Cost result ≡ Cost moved.old }
    ensures places { length (children_of moved.new) ≡ length (children_of moved.old) }
{
    match moved.take_dictionary() {
        Ok(tree) => tree,
        Err(_gone) => panic!(rt; "gone"),
    }
}

fn no_child(rt: &impl Abort, moved: &mut PartlyMoved, i: usize)
    requires { i < length (children_of moved.old) }
    ensures { moved.new ≡ moved.old }
{
    match moved.take_child(i) {
        Ok(_tree) => panic!(rt; "there"),
        Err(Gone) => {}
    }
}

fn no_dictionary(rt: &impl Abort, moved: &mut PartlyMoved)
    ensures { moved.new ≡ moved.old }
{
    match moved.take_dictionary() {
        Ok(_tree) => panic!(rt; "there"),
        Err(Gone) => {}
    }
}

fn two(rt: &impl Abort, alloc: Global, first: RawArray, second: RawArray) -> Vec<RawArray>
    ensures { cost_of_all (trees result.items) ≡ Cost first + Cost second }
{
    let mut children = Vec::new(alloc);
    children.push(first).expect(rt, "no memory");
    children.push(second).expect(rt, "no memory");
    children
}

/// Two columns, of the numbers 1 and 2.
fn two_columns(rt: &impl Abort, alloc: Global, pass: &mut Pass) -> Vec<RawArray> {
    let first = column(rt, alloc, &[1, 0, 0, 0], pass);
    let second = column(rt, alloc, &[2, 0, 0, 0], pass);
    two(rt, alloc, first, second)
}

/// Closes the desk, to whose pass all units are back.
pub(crate) fn closed(rt: &impl Abort, desk: Desk, pass: Pass) -> Audit {
    assert_eq!(rt; pass.units(), SUPPLY);
    desk.close(pass)
}

/// A structure over three columns.
fn three_columns(rt: &impl Abort, alloc: Global, pass: &mut Pass) -> RawArray {
    let mut children = two_columns(rt, alloc, pass);
    let third = column(rt, alloc, &[3, 0, 0, 0], pass);
    children.push(third).expect(rt, "no memory");
    top_over(rt, alloc, children, None, pass)
}

/// What is left of a structure over three columns without its second gives 5 units back.
fn second_column(rt: &impl Abort, top: RawArray, pass: &mut Pass) -> RawArray {
    let mut moved = begun(rt, top, pass);
    let numbers = (moved.length(), moved.null_count(), moved.offset());
    assert_eq!(rt; numbers, (1, 1, 0));
    let child = taken(rt, &mut moved, 1);
    no_child(rt, &mut moved, 1);
    no_dictionary(rt, &mut moved);
    assert_eq!(rt; finished(moved, pass), 5);
    child
}

#[test]
fn a_taken_column_keeps_its_units(rt: HostRuntime) {
    let alloc = rt.alloc();
    let (desk, mut pass) = open_desk();
    let top = three_columns(&rt, alloc, &mut pass);
    assert_eq!(&rt; (top.cost(), pass.units()), (7, SUPPLY - 7));
    let child = second_column(&rt, top, &mut pass);
    assert_eq!(&rt; given_back(&rt, child, &mut pass), 2);
    let audit = closed(&rt, desk, pass);
    assert_eq!(&rt; (audit.blocks, audit.nodes, audit.left), (3, 4, 0));
}

/// Two columns under two structures, beside another column and before a dictionary.
fn three_levels(rt: &impl Abort, alloc: Global, pass: &mut Pass) -> RawArray {
    let children = two_columns(rt, alloc, pass);
    let inner = top_over(rt, alloc, children, None, pass);
    let children = two(rt, alloc, inner, RawArray::released());
    let outer = top_over(rt, alloc, children, None, pass);
    let side = column(rt, alloc, &[3, 0, 0, 0], pass);
    let children = two(rt, alloc, outer, side);
    let dictionary = column(rt, alloc, &[4, 0, 0, 0], pass);
    top_over(rt, alloc, children, Some(dictionary), pass)
}

/// The first child and the dictionary. What is left gives 3 units back.
fn first_and_dictionary(rt: &impl Abort, top: RawArray, pass: &mut Pass) -> (RawArray, RawArray) {
    let mut moved = begun(rt, top, pass);
    let first = taken(rt, &mut moved, 0);
    let dictionary = taken_dictionary(rt, &mut moved);
    no_dictionary(rt, &mut moved);
    assert_eq!(rt; finished(moved, pass), 3);
    (first, dictionary)
}

/// The child at a place. What is left gives this many units back.
fn one_of_two(rt: &impl Abort, tree: RawArray, i: usize, left: u64, pass: &mut Pass) -> RawArray
    requires { i ≤ 1 }
{
    let mut moved = begun(rt, tree, pass);
    let child = taken(rt, &mut moved, i);
    assert_eq!(rt; finished(moved, pass), left);
    child
}

/// A structure over both, of which the first is put in once it is made.
fn put_before(
    rt: &impl Abort,
    alloc: Global,
    first: RawArray,
    second: RawArray,
    pass: &mut Pass,
) -> RawArray {
    let children = two(rt, alloc, RawArray::released(), second);
    let mut top = top_over(rt, alloc, children, None, pass);
    assert_eq!(rt; top.cost(), 3);
    assert!(rt; top.n_children() >= 1);
    assert!(rt; top.child(0).is_released());
    assert!(rt; first.depth() <= 9);
    let mut first = first;
    top.put_child(0, &mut first);
    first.discard();
    top
}

/// The second column of the innermost structure and the dictionary, under a new one.
fn parted(rt: &impl Abort, alloc: Global, top: RawArray, pass: &mut Pass) -> RawArray {
    let (outer, dictionary) = first_and_dictionary(rt, top, pass);
    let inner = one_of_two(rt, outer, 0, 1, pass);
    let lowest = one_of_two(rt, inner, 1, 3, pass);
    put_before(rt, alloc, lowest, dictionary, pass)
}

#[test]
fn parts_of_three_levels_leave_one_tree(rt: HostRuntime) {
    let alloc = rt.alloc();
    let (desk, mut pass) = open_desk();
    let top = three_levels(&rt, alloc, &mut pass);
    assert_eq!(&rt; (top.cost(), top.depth()), (11, 4));
    let top = parted(&rt, alloc, top, &mut pass);
    assert_eq!(&rt; given_back(&rt, top, &mut pass), 5);
    let audit = closed(&rt, desk, pass);
    assert_eq!(&rt; (audit.blocks, audit.nodes), (4, 8));
}

/// Whether the column has these bytes in its data buffer, and no validity buffer.
fn has_bytes(rt: &impl Abort, tree: &RawArray, bytes: &[u8]) -> bool {
    assert!(rt; !tree.is_released());
    assert!(rt; tree.n_buffers() == 2);
    assert!(rt; tree.buffer(0).is_none());
    match tree.buffer(1) {
        Some(found) => found == bytes,
        None => false,
    }
}

/// A structure over the two columns, before a dictionary, and moved once.
fn moved_top(rt: &impl Abort, alloc: Global, pass: &mut Pass) -> RawArray {
    let children = two_columns(rt, alloc, pass);
    let dictionary = column(rt, alloc, &[3, 0, 0, 0], pass);
    let mut source = top_over(rt, alloc, children, Some(dictionary), pass);
    let top = source.move_out();
    source.discard();
    top
}

/// A share, and its source beside it.
fn share_beside(rt: &impl Abort, top: &RawArray, shared: &RawArray, pass: &Pass) {
    assert_eq!(rt; pass.units(), SUPPLY - 14);
    let amounts = (top.least_amount(), shared.least_amount());
    assert_eq!(rt; amounts, (4294967295, 1));
    assert_eq!(rt; top.release_kind(), Some(ReleaseKind::Assembled));
}

/// The members of a share, whose source is gone.
fn share_alone(rt: &impl Abort, shared: &RawArray) {
    assert!(rt; !shared.is_released());
    let numbers = (shared.length(), shared.null_count(), shared.offset());
    let kind = shared.release_kind();
    assert_eq!(rt; (kind, numbers), (Some(ReleaseKind::Shared), (1, 1, 0)));
    share_parts(rt, shared);
}

fn share_parts(rt: &impl Abort, shared: &RawArray)
    requires { IsLive shared.now }
{
    assert!(rt; shared.n_children() == 2);
    assert!(rt; has_bytes(rt, shared.child(1), &[2, 0, 0, 0]));
    match shared.dictionary() {
        Some(tree) => assert!(rt; has_bytes(rt, tree, &[3, 0, 0, 0])),
        None => panic!(rt; "no dictionary"),
    }
}

/// A share outlives its source. Without memory for it, the source has all its units.
fn shared_once(rt: &impl Abort, alloc: Global, top: RawArray, pass: &mut Pass) {
    let mut top = top;
    assert!(rt; !top.is_released());
    let amounts = (top.cost(), top.least_amount(), pass.units());
    assert_eq!(rt; amounts, (7, 4294967296, SUPPLY - 7));
    match top.share(alloc, pass) {
        Ok(shared) => {
            share_beside(rt, &top, &shared, pass);
            assert_eq!(rt; given_back(rt, top, pass), 7);
            share_alone(rt, &shared);
            assert_eq!(rt; given_back(rt, shared, pass), 7);
        }
        Err(_no_memory) => {
            assert!(rt; top.least_amount() >= 4294967295);
            assert_eq!(rt; given_back(rt, top, pass), 7);
        }
    }
}

#[test]
fn a_share_takes_one_of_each_amount(rt: HostRuntime) {
    let alloc = rt.alloc();
    let (desk, mut pass) = open_desk();
    let top = moved_top(&rt, alloc, &mut pass);
    shared_once(&rt, alloc, top, &mut pass);
    let audit = closed(&rt, desk, pass);
    assert_eq!(&rt; (audit.blocks, audit.nodes), (3, 4));
}

/// Where the structure's items are, and how many of them are null.
fn stands(rt: &impl Abort, tree: &RawArray, offset: i64, length: i64, null_count: i64)
    ensures live { IsLive tree.now }
    ensures offset { (members_of tree.now).offset ≡ offset }
    ensures length { (members_of tree.now).length ≡ length }
{
    assert!(rt; !tree.is_released());
    assert!(rt; tree.offset() == offset);
    assert!(rt; tree.length() == length);
    assert!(rt; tree.null_count() == null_count);
}

/// Windows of four items, this many of them null, one in another. What the narrow ones know of nulls comes last.
fn windowed(rt: &impl Abort, tree: &mut RawArray, nulls: i64, unknown: i64) {
    stands(rt, tree, 0, 4, nulls);
    tree.window(0, 4);
    stands(rt, tree, 0, 4, nulls);
    tree.window(1, 3);
    stands(rt, tree, 1, 3, unknown);
    tree.window(1, 1);
    stands(rt, tree, 2, 1, unknown);
}

#[test]
fn a_window_of_a_window_adds_the_offsets(rt: HostRuntime) {
    let alloc = rt.alloc();
    let (desk, mut pass) = open_desk();
    let bytes = [1, 0, 0, 0, 2, 0, 0, 0, 3, 0, 0, 0, 4, 0, 0, 0];
    for (null_count, unknown) in [(0, 0), (1, -1)] {
        let mut tree = numbers(&rt, alloc, &bytes, null_count, &mut pass);
        windowed(&rt, &mut tree, null_count, unknown);
        assert!(&rt; has_bytes(&rt, &tree, &bytes));
        assert_eq!(&rt; given_back(&rt, tree, &mut pass), 2);
    }
    let audit = closed(&rt, desk, pass);
    assert_eq!(&rt; audit.blocks, 2);
}

/// A column that is put into a released place.
fn placed(rt: &impl Abort, alloc: Global, pass: &mut Pass) -> RawArray {
    let mut place = RawArray::released();
    place.put(column(rt, alloc, &[3, 0, 0, 0], pass));
    assert!(rt; !place.is_released());
    place
}

/// Two columns that are released as a list, while a third has its units.
fn two_end(rt: &impl Abort, alloc: Global, pass: &mut Pass) {
    let first = column(rt, alloc, &[1, 0, 0, 0], pass);
    let second = column(rt, alloc, &[2, 0, 0, 0], pass);
    let amounts = (first.cost(), second.cost(), pass.units());
    assert_eq!(rt; amounts, (2, 2, SUPPLY - 6));
    release_all(two(rt, alloc, first, second), pass);
}

#[test]
fn ended_trees_give_all_units_back(rt: HostRuntime) {
    let alloc = rt.alloc();
    let (desk, mut pass) = open_desk();
    let place = placed(&rt, alloc, &mut pass);
    two_end(&rt, alloc, &mut pass);
    assert_eq!(&rt; (place.cost(), pass.units()), (2, SUPPLY - 2));
    place.end(&mut pass);
    let audit = closed(&rt, desk, pass);
    assert_eq!(&rt; (audit.blocks, audit.nodes), (3, 3));
}
