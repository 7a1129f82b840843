//! Copies of the kinds of a schema.
ghost use Rattle.std.specs.Prelude.{◌≡◌, IfOk, map};
ghost use Rattle.tree_model.specs.promise.TreeData.{trees};
ghost use Rattle.data_types.specs.KindTrees.{AllNodesOk, NodesOk};
ghost use Rattle.data_types.specs.promise.TypedView.{typed_of};

use data_types::{Typed, clone_kind, kinds_of_typed};
use std::alloc::Global;
use unit_pass::NoMemory;

/// A copy of kinds.
#[cycle(kinds)]
pub(crate) fn kept_kinds(alloc: Global, typed: &Typed) -> Result<Typed, NoMemory>
    requires { NodesOk (typed_of typed.now) }
    ensures { IfOk result (λ copy. typed_of copy ≡ typed_of typed.now) }
{
    kinds_of_typed(typed);
    let kind = clone_kind(alloc, &typed.kind)?;
    let kids = kept_kids(alloc, typed.kids.as_slice())?;
    let dict = match &typed.dict {
        None => None,
        Some(dict) => Some(Box::new(alloc, kept_kinds(alloc, dict)?)?),
    };
    Ok(Typed { kind, dict, kids })
}

#[cycle(kinds)]
fn kept_kids(alloc: Global, kids: &[Typed]) -> Result<Vec<Typed>, NoMemory>
    requires { AllNodesOk (trees (map typed_of kids.now)) }
    ensures { IfOk result (λ copies. map typed_of copies.items ≡ map typed_of kids.now) }
{
    let mut copies = Vec::new(alloc);
    for kid in kids {
        copies.push(kept_kinds(alloc, kid)?)?;
    }
    Ok(copies)
}
