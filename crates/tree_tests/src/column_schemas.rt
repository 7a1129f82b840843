//! The schema of a table, node by node: formats, names and flags.
use arr_export::export_schema;
use data_types::{ColKind, ColumnType, DataType};
use raw_schema::RawSchema;
use std::alloc::Global;
use std::process::Abort;
use std::test::Fail;
use unit_pass::{Name, SUPPLY, open_desk};

/// A node's format, name and flags, as text.
fn shown(rt: &impl Abort, alloc: Global, tree: &RawSchema) -> Result<String, Fail> {
    assert!(rt; !tree.is_released());
    let text = format!(in alloc; "{:?} {:?} {}", tree.format(), tree.name(), tree.flags())?;
    Ok(text)
}

/// A child, which must be there.
fn child<'a>(rt: &impl Abort, tree: &'a RawSchema, i: u32) -> &'a RawSchema {
    assert!(rt; !tree.is_released());
    assert!(rt; i64::from(i) < tree.n_children());
    tree.child(i as usize)
}

/// The dictionary, which must be there.
fn dictionary<'a>(rt: &impl Abort, tree: &'a RawSchema) -> &'a RawSchema {
    assert!(rt; !tree.is_released());
    match tree.dictionary() {
        Some(dictionary) => dictionary,
        None => panic!(rt; "there is no dictionary"),
    }
}

fn check_nodes(rt: &impl Abort, alloc: Global, tree: &RawSchema) -> Result<(), Fail> {
    assert_eq!(rt; shown(rt, alloc, tree)?.as_str(), "[43, 115] Some([]) 0");
    assert_eq!(rt;
        shown(rt, alloc, child(rt, tree, 0))?.as_str(),
        "[108] Some([105, 100]) 2"
    );
    let tag = child(rt, tree, 1);
    assert_eq!(rt; shown(rt, alloc, tag)?.as_str(), "[105] Some([116]) 2");
    assert_eq!(rt;
        shown(rt, alloc, dictionary(rt, tag))?.as_str(),
        "[117] None 2"
    );
    Ok(())
}

#[test]
fn columns_are_children_of_a_struct(rt: HostRuntime) -> Result<(), Fail> {
    let alloc = rt.alloc();
    let id = Name::from_slice(alloc, b"id")
        .ok()
        .ok_or("there is memory")?;
    let tag = Name::from_slice(alloc, b"t").ok().ok_or("there is memory")?;
    let columns = [
        ColumnType {
            name: id,
            kind: ColKind::Flat(DataType::Int {
                bits: 64,
                signed: true,
            }),
        },
        ColumnType {
            name: tag,
            kind: ColKind::Dict(DataType::Utf8 { wide: false }),
        },
    ];
    let (desk, mut pass) = open_desk();
    match export_schema(alloc, &columns, &mut pass) {
        Ok(mut tree) => {
            assert_eq!(rt; pass.units(), SUPPLY - 4);
            let checked = check_nodes(&rt, alloc, &tree);
            tree.release(&mut pass);
            tree.discard();
            let audit = desk.close(pass);
            assert_eq!(rt; (audit.nodes, audit.blocks), (4, 0));
            checked
        }
        Err(_no_memory) => panic!(rt; "there is memory"),
    }
}
