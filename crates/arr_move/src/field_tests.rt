//! Fields picked out of order, against what their parent held.
use crate::fields::{self, take_fields};
use raw_schema::{RawSchema, SchemaParts};
use std::alloc::Global;
use std::process::Abort;
use unit_pass::{Pass, SUPPLY, open_desk};

/// A field with this name, over as many released ones.
#[tactic(auto, using(crate::proofs::Vacant::vacant))]
fn field(
    rt: &impl Abort,
    alloc: Global,
    format: &[u8],
    name: &[u8],
    places: usize,
    pass: &mut Pass,
) -> RawSchema {
    assert!(rt; pass.units() >= 1);
    assert!(rt; places <= 3);
    let format = match Vec::from_slice(alloc, format) {
        Ok(format) => format,
        Err(_) => panic!(rt; "no memory"),
    };
    let name = match Vec::from_slice(alloc, name) {
        Ok(name) => name,
        Err(_) => panic!(rt; "no memory"),
    };
    let children = match fields::vacant_places(alloc, places) {
        Ok(children) => children,
        Err(_) => panic!(rt; "no memory"),
    };
    let parts = SchemaParts {
        format,
        name: Some(name),
        metadata: None,
        flags: 2,
        children,
        dictionary: None,
    };
    match RawSchema::build(alloc, parts, pass) {
        Ok(schema) => schema,
        Err(_refused) => panic!(rt; "no memory"),
    }
}

/// Puts a field into its place.
#[tactic(auto, using(crate::proofs::Picked::picked))]
fn put_field(rt: &impl Abort, parent: &mut RawSchema, i: usize, child: RawSchema) {
    let mut child = child;
    assert!(rt; !parent.is_released());
    assert!(rt; i < 3);
    assert!(rt; parent.n_children() >= i as i64 + 1);
    assert!(rt; parent.child(i).is_released());
    assert!(rt; child.depth() <= 127);
    parent.put_child(i, &mut child);
    child.discard();
}

/// The first byte of a field's name.
#[tactic(auto, using(crate::proofs::Picked::picked))]
fn name_of(rt: &impl Abort, schema: &RawSchema) -> u8 {
    assert!(rt; !schema.is_released());
    match schema.name() {
        Some(name) => {
            assert!(rt; name.len() >= 1);
            name[0]
        }
        None => panic!(rt; "no name"),
    }
}

/// The fields 2 and 0 of a schema with three.
#[tactic(auto, using(crate::proofs::Picked::picked))]
fn last_and_first_field(
    rt: &impl Abort,
    alloc: Global,
    schema: RawSchema,
    pass: &mut Pass,
) -> RawSchema {
    assert!(rt; !schema.is_released());
    assert!(rt; schema.n_children() == 3);
    assert!(rt; schema.cost() <= 99);
    assert!(rt; pass.units() >= 1);
    assert!(rt; pass.units() + schema.cost() <= SUPPLY);
    match schema.dictionary() {
        None => {}
        Some(_) => panic!(rt; "a dictionary"),
    }
    match take_fields(alloc, schema, &[2, 0], pass) {
        Ok(fields) => fields,
        Err(_refused) => panic!(rt; "no memory"),
    }
}

#[tactic(auto, using(crate::proofs::Picked::picked))]
fn end_schema(rt: &impl Abort, schema: RawSchema, pass: &mut Pass) {
    let mut schema = schema;
    assert!(rt; schema.cost() <= 99);
    assert!(rt; pass.units() + schema.cost() <= SUPPLY);
    let _acted = schema.release(pass);
    schema.discard();
}

/// A schema over three fields.
fn three_fields(rt: &impl Abort, alloc: Global, pass: &mut Pass) -> RawSchema {
    let mut parent = field(rt, alloc, b"+s", b"t", 3, pass);
    let names: [&[u8]; 3] = [b"a", b"b", b"c"];
    for i in 0..3 {
        let child = field(rt, alloc, b"i", names[i], 0, pass);
        put_field(rt, &mut parent, i, child);
    }
    parent
}

/// The schema over the picked fields, and the name of each.
#[tactic(auto, using(crate::proofs::Picked::picked))]
fn picked_fields(rt: &impl Abort, fields: &RawSchema) {
    assert!(rt; name_of(rt, fields) == b't');
    assert!(rt; !fields.is_released());
    assert!(rt; fields.flags() == 2);
    assert!(rt; fields.n_children() == 2);
    assert!(rt; name_of(rt, fields.child(0)) == b'c');
    assert!(rt; name_of(rt, fields.child(1)) == b'a');
}

#[test]
fn picked_fields_keep_their_order(rt: HostRuntime) {
    let alloc = rt.alloc();
    let (desk, mut pass) = open_desk();
    let parent = three_fields(&rt, alloc, &mut pass);
    let fields = last_and_first_field(&rt, alloc, parent, &mut pass);
    assert!(&rt; (pass.blocks(), pass.nodes()) == (0, 5));
    picked_fields(&rt, &fields);
    end_schema(&rt, fields, &mut pass);
    assert!(&rt; pass.units() == SUPPLY);
    let _audit = desk.close(pass);
}
