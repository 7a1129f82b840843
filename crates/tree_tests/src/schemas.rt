//! Schemas of several levels whose parts are shared, taken and released, with the units that come back counted.
ghost use Rattle.std.specs.Prelude.{◌≡◌, ◌+◌, ◌<◌, ◌≤◌, length};
ghost use Rattle.tree_model.specs.promise.TreeParts.{IsLive, children_of};
ghost use Rattle.tree_model.specs.promise.TreeData.{trees};
ghost use Rattle.tree_model.specs.promise.TreeCost.{Nodes};
ghost use Rattle.raw_schema.specs.Members.{nodes_of_all};

use crate::arrays::closed;
use raw_schema::{Acted, Gone, PartlyMovedSchema, RawSchema, release_all};
use std::alloc::Global;
use std::process::Abort;
use test_parts::node;
use unit_pass::{Pass, SUPPLY, open_desk};

/// A node with a format and a name.
fn named(
    rt: &impl Abort,
    alloc: Global,
    texts: (&[u8], &[u8]),
    children: Vec<RawSchema>,
    dictionary: Option<RawSchema>,
    pass: &mut Pass,
) -> RawSchema
    ensures { IsLive result }
{
    let (format, name) = texts;
    node(alloc, format, Some(name), children, dictionary, pass).expect(rt, "no memory")
}

/// The units that the release of a tree gives back.
fn given_back(rt: &impl Abort, tree: RawSchema, pass: &mut Pass) -> u64 {
    let mut tree = tree;
    let before = pass.units();
    assert!(rt; tree.cost() <= SUPPLY - before);
    assert_eq!(rt; tree.release(pass), Acted::Acted);
    assert_eq!(rt; tree.release(pass), Acted::Was);
    tree.discard();
    pass.units() - before
}

/// A node without children.
fn leaf(rt: &impl Abort, alloc: Global, name: &[u8], pass: &mut Pass) -> RawSchema
    ensures { IsLive result }
{
    named(rt, alloc, (b"i", name), Vec::new(alloc), None, pass)
}

fn is_named(rt: &impl Abort, tree: &RawSchema, name: &[u8]) -> bool {
    assert!(rt; !tree.is_released());
    match tree.name() {
        Some(found) => found == name,
        None => false,
    }
}

/// A structure over one field, before a dictionary, and moved once.
fn moved_top(rt: &impl Abort, alloc: Global, pass: &mut Pass) -> RawSchema
    ensures { IsLive result }
{
    let mut children = Vec::new(alloc);
    children
        .push(leaf(rt, alloc, b"a", pass))
        .expect(rt, "no memory");
    let dictionary = Some(leaf(rt, alloc, b"", pass));
    let mut top = named(rt, alloc, (b"+s", b"top"), children, dictionary, pass);
    assert_eq!(rt; (top.cost(), top.depth()), (3, 2));
    let moved = top.move_out();
    top.discard();
    moved
}

/// The members of a share, whose source is gone.
fn share_alone(rt: &impl Abort, shared: &RawSchema) {
    assert!(rt; is_named(rt, shared, b"top"));
    assert!(rt; !shared.is_released());
    assert!(rt; shared.format() == b"+s".as_slice());
    assert_eq!(rt; (shared.metadata(), shared.flags()), (None, 2));
    share_parts(rt, shared);
}

fn share_parts(rt: &impl Abort, shared: &RawSchema)
    requires { IsLive shared.now }
{
    assert!(rt; shared.n_children() == 1);
    assert!(rt; is_named(rt, shared.child(0), b"a"));
    match shared.dictionary() {
        Some(tree) => assert!(rt; is_named(rt, tree, b"")),
        None => panic!(rt; "no dictionary"),
    }
}

/// A share outlives its source. Without memory for it, the source has all its units.
fn shared_once(rt: &impl Abort, alloc: Global, top: RawSchema, pass: &mut Pass)
    requires { IsLive top }
{
    assert_eq!(rt; (top.cost(), pass.units()), (3, SUPPLY - 3));
    let answer = top.share(alloc, pass);
    if answer.is_ok() {
        assert_eq!(rt; pass.units(), SUPPLY - 6);
    }
    assert_eq!(rt; given_back(rt, top, pass), 3);
    match answer {
        Ok(shared) => {
            share_alone(rt, &shared);
            assert_eq!(rt; given_back(rt, shared, pass), 3);
        }
        Err(_no_memory) => {}
    }
}

#[test]
fn a_share_outlives_its_source(rt: HostRuntime) {
    let alloc = rt.alloc();
    let (desk, mut pass) = open_desk();
    let top = moved_top(&rt, alloc, &mut pass);
    shared_once(&rt, alloc, top, &mut pass);
    assert_eq!(&rt; closed(&rt, desk, pass).nodes, 3);
}

fn begun(rt: &impl Abort, tree: RawSchema, pass: &Pass) -> PartlyMovedSchema
    ensures room { pass.now.units + Nodes result ≤ SUPPLY }
    ensures places { 2 ≤ length (children_of result) }
{
    assert!(rt; !tree.is_released());
    assert!(rt; tree.cost() <= SUPPLY - pass.units());
    assert!(rt; tree.n_children() >= 2);
    PartlyMovedSchema::begin(tree)
}

/// The units that the end of a partly moved tree gives back.
fn finished(moved: PartlyMovedSchema, pass: &mut Pass) -> u64
    requires { pass.old.units + Nodes moved ≤ SUPPLY }
{
    let before = pass.units();
    moved.finish(pass);
    pass.units() - before
}

fn taken(rt: &impl Abort, moved: &mut PartlyMovedSchema, i: usize) -> RawSchema
    requires { i < length (children_of moved.old) }
    ensures parted { Nodes moved.new + Nodes result ≡ Nodes moved.old }
    ensures places { length (children_of moved.new) ≡ length (children_of moved.old) }
{
    match moved.take_child(i) {
        Ok(child) => child,
        Err(_gone) => panic!(rt; "gone"),
    }
}

fn taken_dictionary(rt: &impl Abort, moved: &mut PartlyMovedSchema) -> RawSchema
    ensures parted { Nodes moved.new + Nodes result ≡ Nodes moved.old }
    ensures places { length (children_of moved.new) ≡ length (children_of moved.old) }
{
    match moved.take_dictionary() {
        Ok(tree) => tree,
        Err(_gone) => panic!(rt; "gone"),
    }
}

fn no_child(rt: &impl Abort, moved: &mut PartlyMovedSchema, i: usize)
    requires { i < length (children_of moved.old) }
    ensures { moved.new ≡ moved.old }
{
    match moved.take_child(i) {
        Ok(_tree) => panic!(rt; "there"),
        Err(Gone) => {}
    }
}

fn no_dictionary(rt: &impl Abort, moved: &mut PartlyMovedSchema)
    ensures { moved.new ≡ moved.old }
{
    match moved.take_dictionary() {
        Ok(_tree) => panic!(rt; "there"),
        Err(Gone) => {}
    }
}

fn two(rt: &impl Abort, alloc: Global, first: RawSchema, second: RawSchema) -> Vec<RawSchema>
    ensures { nodes_of_all (trees result.items) ≡ Nodes first + Nodes second }
{
    let mut children = Vec::new(alloc);
    children.push(first).expect(rt, "no memory");
    children.push(second).expect(rt, "no memory");
    children
}

/// Two fields with these names.
fn two_fields(
    rt: &impl Abort,
    alloc: Global,
    first: &[u8],
    second: &[u8],
    pass: &mut Pass,
) -> Vec<RawSchema> {
    let first = leaf(rt, alloc, first, pass);
    let second = leaf(rt, alloc, second, pass);
    two(rt, alloc, first, second)
}

/// A structure over two fields and a released one, before a dictionary.
fn three_places(rt: &impl Abort, alloc: Global, pass: &mut Pass) -> RawSchema {
    let mut children = two_fields(rt, alloc, b"a", b"b", pass);
    children.push(RawSchema::released()).expect(rt, "no memory");
    let dictionary = Some(leaf(rt, alloc, b"", pass));
    let top = named(rt, alloc, (b"+s", b""), children, dictionary, pass);
    assert_eq!(rt; (top.n_children(), top.cost()), (3, 4));
    top
}

/// The second child and the dictionary, each taken once. What is left gives 2 units back.
fn second_and_dictionary(
    rt: &impl Abort,
    top: RawSchema,
    pass: &mut Pass,
) -> (RawSchema, RawSchema) {
    let mut moved = begun(rt, top, pass);
    let child = taken(rt, &mut moved, 1);
    no_child(rt, &mut moved, 1);
    let dictionary = taken_dictionary(rt, &mut moved);
    no_dictionary(rt, &mut moved);
    assert_eq!(rt; finished(moved, pass), 2);
    (child, dictionary)
}

#[test]
fn a_second_take_finds_the_part_gone(rt: HostRuntime) {
    let alloc = rt.alloc();
    let (desk, mut pass) = open_desk();
    let top = three_places(&rt, alloc, &mut pass);
    let (child, dictionary) = second_and_dictionary(&rt, top, &mut pass);
    assert_eq!(&rt; given_back(&rt, child, &mut pass), 1);
    assert_eq!(&rt; given_back(&rt, dictionary, &mut pass), 1);
    assert_eq!(&rt; closed(&rt, desk, pass).nodes, 4);
}

/// Two fields under two structures, beside another field and before a dictionary.
fn three_levels(rt: &impl Abort, alloc: Global, pass: &mut Pass) -> RawSchema {
    let children = two_fields(rt, alloc, b"low", b"lowest", pass);
    let inner = named(rt, alloc, (b"+s", b"inner"), children, None, pass);
    let children = two(rt, alloc, inner, RawSchema::released());
    let outer = named(rt, alloc, (b"+s", b"outer"), children, None, pass);
    let side = leaf(rt, alloc, b"side", pass);
    let dictionary = Some(leaf(rt, alloc, b"", pass));
    let children = two(rt, alloc, outer, side);
    named(rt, alloc, (b"+s", b"top"), children, dictionary, pass)
}

/// The first child and the dictionary. What is left gives 2 units back.
fn first_and_dictionary(
    rt: &impl Abort,
    top: RawSchema,
    pass: &mut Pass,
) -> (RawSchema, RawSchema) {
    let mut moved = begun(rt, top, pass);
    let first = taken(rt, &mut moved, 0);
    let dictionary = taken_dictionary(rt, &mut moved);
    assert_eq!(rt; finished(moved, pass), 2);
    (first, dictionary)
}

/// The child at a place. What is left gives this many units back.
fn one_of_two(rt: &impl Abort, tree: RawSchema, i: usize, left: u64, pass: &mut Pass) -> RawSchema
    requires { i ≤ 1 }
{
    let mut moved = begun(rt, tree, pass);
    let child = taken(rt, &mut moved, i);
    assert_eq!(rt; finished(moved, pass), left);
    child
}

/// A structure over both, of which the first is put in once it is made.
fn put_before(
    rt: &impl Abort,
    alloc: Global,
    first: RawSchema,
    second: RawSchema,
    pass: &mut Pass,
) -> RawSchema {
    let children = two(rt, alloc, RawSchema::released(), second);
    let mut top = named(rt, alloc, (b"+s", b""), children, None, pass);
    assert_eq!(rt; top.cost(), 2);
    assert!(rt; top.n_children() >= 1);
    assert!(rt; top.child(0).is_released());
    assert!(rt; first.depth() <= 9);
    let mut first = first;
    top.put_child(0, &mut first);
    first.discard();
    top
}

/// The second field of the innermost structure and the dictionary, under a new one.
fn parted(rt: &impl Abort, alloc: Global, top: RawSchema, pass: &mut Pass) -> RawSchema {
    let (outer, dictionary) = first_and_dictionary(rt, top, pass);
    let inner = one_of_two(rt, outer, 0, 1, pass);
    let lowest = one_of_two(rt, inner, 1, 2, pass);
    put_before(rt, alloc, lowest, dictionary, pass)
}

#[test]
fn parts_of_three_levels_leave_one_tree(rt: HostRuntime) {
    let alloc = rt.alloc();
    let (desk, mut pass) = open_desk();
    let top = three_levels(&rt, alloc, &mut pass);
    assert_eq!(&rt; (top.cost(), top.depth()), (7, 4));
    let top = parted(&rt, alloc, top, &mut pass);
    assert_eq!(&rt; top.cost(), 3);
    assert_eq!(&rt; given_back(&rt, top, &mut pass), 3);
    assert_eq!(&rt; closed(&rt, desk, pass).nodes, 8);
}

/// A field that is put into a released place.
fn placed(rt: &impl Abort, alloc: Global, pass: &mut Pass) -> RawSchema {
    let mut place = RawSchema::released();
    place.put(leaf(rt, alloc, b"c", pass));
    assert!(rt; !place.is_released());
    place
}

/// Two fields that are released as a list, while a third has its unit.
fn two_end(rt: &impl Abort, alloc: Global, pass: &mut Pass) {
    let first = leaf(rt, alloc, b"a", pass);
    let second = leaf(rt, alloc, b"b", pass);
    let amounts = (first.cost(), second.cost(), pass.units());
    assert_eq!(rt; amounts, (1, 1, SUPPLY - 3));
    release_all(two(rt, alloc, first, second), pass);
}

#[test]
fn ended_trees_give_all_units_back(rt: HostRuntime) {
    let alloc = rt.alloc();
    let (desk, mut pass) = open_desk();
    let place = placed(&rt, alloc, &mut pass);
    two_end(&rt, alloc, &mut pass);
    assert_eq!(&rt; (place.cost(), pass.units()), (1, SUPPLY - 1));
    place.end(&mut pass);
    let audit = closed(&rt, desk, pass);
    assert_eq!(&rt; (audit.blocks, audit.nodes), (0, 3));
}
