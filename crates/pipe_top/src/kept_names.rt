//! The names of a schema at all depths.
ghost use Rattle.std.specs.Prelude.{◌≡◌, ◌++◌, IfOk, OnOk};
ghost use Rattle.tree_model.specs.promise.TreeParts.{IsLive, children_of};
ghost use Rattle.tree_model.specs.promise.TreeData.{trees};
ghost use Rattle.raw_schema.specs.promise.Members.{members_of};
ghost use Rattle.stream_face.specs.promise.Shown.{names_of, names_of_all};

use raw_schema::RawSchema;
use std::alloc::Global;
use unit_pass::{Name, NoMemory};

/// The names of a schema's nodes: a node's, those of its children, those of its dictionary.
pub(crate) fn kept_names(alloc: Global, schema: &RawSchema) -> Result<Vec<Option<Name>>, NoMemory>
    ensures { IfOk result (λ names. names.items ≡ names_of schema.now) }
{
    let mut names = Vec::new(alloc);
    add_names(alloc, schema, &mut names)?;
    Ok(names)
}

/// The name of a node.
fn name_of(alloc: Global, schema: &RawSchema) -> Result<Option<Name>, NoMemory>
    requires { IsLive schema.now }
    ensures { IfOk result (λ name. name ≡ (members_of schema.now).name) }
{
    match schema.name() {
        None => Ok(None),
        Some(bytes) => Ok(Some(Name::from_slice(alloc, bytes)?)),
    }
}

#[cycle(names)]
fn add_names(
    alloc: Global,
    schema: &RawSchema,
    names: &mut Vec<Option<Name>>,
) -> Result<(), NoMemory>
    ensures { OnOk result (names.new.items ≡ names.old.items ++ names_of schema.now) }
{
    if schema.is_released() {
        return Ok(());
    }
    names.push(name_of(alloc, schema)?)?;
    add_child_names(alloc, schema, names)?;
    match schema.dictionary() {
        None => Ok(()),
        Some(dictionary) => add_names(alloc, dictionary, names),
    }
}

#[cycle(names)]
fn add_child_names(
    alloc: Global,
    schema: &RawSchema,
    names: &mut Vec<Option<Name>>,
) -> Result<(), NoMemory>
    requires { IsLive schema.now }
    ensures { OnOk result (names.new.items ≡ names.old.items ++ names_of_all (trees (children_of schema.now))) }
{
    let count = schema.n_children() as usize;
    for i in 0..count {
        add_names(alloc, schema.child(i), names)?;
    }
    Ok(())
}
