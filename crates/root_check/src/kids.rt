//! The kinds of each child of a schema.
ghost use Rattle.std.specs.Prelude.{◌≡◌, ◌^◌, ◌-◌, ◌<◌, All, IfOk, IfErr, List, Result, map, length};
ghost use Rattle.std.specs.List.{AllZip};
ghost use Rattle.tree_model.specs.promise.TreeParts.{IsLive, children_of, child_at};
ghost use Rattle.raw_schema.specs.promise.Members.{SchemaTree};
ghost use Rattle.data_types.specs.promise.KindTrees.{KindTree};
ghost use Rattle.data_types.specs.KindTrees.{TypedOk};
ghost use Rattle.data_types.specs.promise.TypedView.{typed_of};
ghost use Rattle.schema_check.specs.promise.Schemas.{TypedOf};
ghost use Rattle.root_check.specs.declared.kids.ChildKindsFault.TheVariants as faults;
ghost use Rattle.root_check.specs.promise.Schemas.{KidFault};
ghost use Rattle.root_check.specs.Schemas.{KidsRead};
ghost use Rattle.root_check.specs.KidAnswers.{IsFaultOfKids, IsFaultOfKid, GivesKids};

use crate::laws::one_root_answer;
use data_types::Typed;
use raw_schema::RawSchema;
use schema_check::{SchemaFault, check_schema};
use std::alloc::{AllocError, AllocFailed, Global};

/// Why a schema's children have no kinds.
#[derive(Clone, Copy, Debug, PartialEq, Eq)]
pub enum ChildKindsFault {
    /// The first child at fault, by its number from 0, and its first fault, which is never an out-of-memory. The way to the node
    /// at fault begins at the child, which is on level 1.
    Child { child: u32, fault: SchemaFault },
    /// Memory ran out; the children may be in order or not.
    NoMemory,
}

impl From<AllocError> for ChildKindsFault {
    ghost from_gives = { λ _ e. e ≡ faults.NoMemory };

    fn from(_e: AllocError) -> ChildKindsFault {
        ChildKindsFault::NoMemory
    }
}

impl<T: Drop> From<AllocFailed<T>> for ChildKindsFault {
    ghost from_gives = { λ _ e. e ≡ faults.NoMemory };

    fn from(_e: AllocFailed<T>) -> ChildKindsFault {
        ChildKindsFault::NoMemory
    }
}

/// The kinds of each child of a live schema, or the first child, by number, at which `schema_check::check_schema` finds a fault
/// ("The Arrow C Data Interface", "The ArrowSchema structure"). Memory is taken for the kinds alone. What was made is given
/// back where the answer is a fault.
pub fn child_types(alloc: Global, schema: &RawSchema) -> Result<Vec<Typed>, ChildKindsFault>
    requires { IsLive schema.now }
    ensures found { IfOk result (λ kids. AllZip TypedOf (children_of schema.now) (map typed_of kids.items)) }
    ensures valid { IfOk result (λ kids. All TypedOk (map typed_of kids.items)) }
    ensures fault { IfErr result (IsFaultOfKids (children_of schema.now)) }
    // Children of these kinds give them, and a first child at fault is answered, unless memory runs out.
    ensures only { (read : Result (List KindTree) KidFault) → KidsRead (children_of schema.now) read → GivesKids result read }
{
    one_root_answer();
    types_of_children(alloc, schema)
}

fn types_of_children(alloc: Global, schema: &RawSchema) -> Result<Vec<Typed>, ChildKindsFault>
    requires { IsLive schema.now }
    ensures found { IfOk result (λ kids. AllZip TypedOf (children_of schema.now) (map typed_of kids.items)) }
    ensures valid { IfOk result (λ kids. All TypedOk (map typed_of kids.items)) }
    ensures fault { IfErr result (IsFaultOfKids (children_of schema.now)) }
{
    let count = schema.n_children() as usize;
    let mut kids = Vec::with_capacity(alloc, count)?;
    for i in 0..count {
        let kid = child_type(alloc, schema, i)?;
        kids.push(kid)?;
    }
    Ok(kids)
}

/// The kinds of one child.
fn child_type(alloc: Global, schema: &RawSchema, i: usize) -> Result<Typed, ChildKindsFault>
    requires inside { i < length (children_of schema.now) }
    requires few { i < 2 ^ 32 - 1 }
    ensures found { IfOk result (λ typed. TypedOf (child_at schema.now i) (typed_of typed)) }
    ensures valid { IfOk result (λ typed. TypedOk (typed_of typed)) }
    ensures fault { IfErr result (IsFaultOfKid i (child_at schema.now i)) }
{
    match check_schema(alloc, schema.child(i)) {
        Ok(kid) => Ok(kid),
        Err(SchemaFault::NoMemory) => Err(ChildKindsFault::NoMemory),
        Err(SchemaFault::At { path, rule }) => Err(ChildKindsFault::Child {
            child: i as u32,
            fault: SchemaFault::At { path, rule },
        }),
    }
}
