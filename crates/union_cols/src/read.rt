//! The kinds of a union's schema.
ghost use Rattle.std.specs.Prelude.{◌≡◌, IfOk, IfErr, Result};
ghost use Rattle.raw_schema.specs.promise.Members.{SchemaTree, members_of};
ghost use Rattle.tree_model.specs.promise.TreeParts.{IsLive};
ghost use Rattle.union_cols.specs.FormatAnswers.{format_in};
ghost use Rattle.union_cols.specs.promise.UnionFormats.{UnionFormatIs};
ghost use Rattle.union_cols.specs.promise.Unions.{UnionTree};
ghost use Rattle.union_cols.specs.Unions.{UnionTypedOk};
ghost use Rattle.union_cols.specs.promise.UnionSchemas.{UnionOf, SchemaFound, UnionReads};
ghost use Rattle.union_cols.specs.UnionAnswers.{union_of, IsUnionFault, GivesUnion};

use crate::format::{FormatFault, UnionFormat, union_format};
use crate::kinds::UnionTyped;
use crate::laws::one_union_answer;
use crate::schema_fault::UnionSchemaFault;
use raw_schema::RawSchema;
use root_check::{check_own_schema, child_types};
use std::alloc::Global;

/// The kinds of a union's schema, or the first fault in the order of [`UnionSchemaFault`] ("The Arrow C Data Interface", "Data type
/// description -- format strings": `+ud:I,J,...` and `+us:I,J,...`). Name, flags and nullability aren't looked at. Memory is taken
/// for the kinds, and for the ids. What was made is given back where the answer is a fault.
pub fn read_union(alloc: Global, schema: &RawSchema) -> Result<UnionTyped, UnionSchemaFault>
    // What is answered are the schema's kinds, and it has no fault.
    ensures found { IfOk result (λ typed. UnionOf schema.now (union_of typed)) }
    ensures valid { IfOk result (λ typed. UnionTypedOk (union_of typed)) }
    // Which fault it is.
    ensures fault { IfErr result (IsUnionFault schema.now) }
    // A union's schema gives its kinds, and one that has a first fault gives it, unless memory runs out.
    ensures only { (read : Result UnionTree SchemaFound) → UnionReads schema.now read → GivesUnion result read }
{
    one_union_answer();
    union_kinds(alloc, schema)
}

fn union_kinds(alloc: Global, schema: &RawSchema) -> Result<UnionTyped, UnionSchemaFault>
    ensures found { IfOk result (λ typed. UnionOf schema.now (union_of typed)) }
    ensures valid { IfOk result (λ typed. UnionTypedOk (union_of typed)) }
    ensures fault { IfErr result (IsUnionFault schema.now) }
{
    if schema.is_released() {
        return Err(UnionSchemaFault::Released);
    }
    let UnionFormat { dense, ids } = live_format(alloc, schema)?;
    check_own_schema(schema)?;
    let found = schema.n_children() as u64;
    let needed = ids.len() as u64;
    if found != needed {
        return Err(UnionSchemaFault::ChildCount { found, needed });
    }
    let kids = child_types(alloc, schema)?;
    Ok(UnionTyped { dense, ids, kids })
}

/// The format of a live schema.
fn live_format(alloc: Global, schema: &RawSchema) -> Result<UnionFormat, UnionSchemaFault>
    requires { IsLive schema.now }
    ensures found { IfOk result (λ format. UnionFormatIs (members_of schema.now).format (format_in format)) }
    ensures fault { IfErr result (IsUnionFault schema.now) }
{
    match union_format(alloc, schema.format()) {
        Ok(format) => Ok(format),
        Err(FormatFault::At(place)) => Err(UnionSchemaFault::Format { place }),
        Err(FormatFault::NoMemory) => Err(UnionSchemaFault::NoMemory),
    }
}
