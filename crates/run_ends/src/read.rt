//! The kinds of the schema of a run-end encoded array.
ghost use Rattle.std.specs.Prelude.{◌≡◌, ◌↔◌, ◌∷◌, [], IsTrue, IfOk, IfErr, Result, codes, length, map, All};
ghost use Rattle.std.specs.List.{AllZip};
ghost use Rattle.raw_schema.specs.promise.Members.{SchemaTree};
ghost use Rattle.tree_model.specs.promise.TreeParts.{IsLive, children_of};
ghost use Rattle.data_types.specs.KindTrees.{TypedOk};
ghost use Rattle.data_types.specs.promise.TypedView.{typed_of};
ghost use Rattle.schema_check.specs.promise.Schemas.{TypedOf};
ghost use Rattle.run_ends.specs.promise.Runs.{RunTree, IsEnds};
ghost use Rattle.run_ends.specs.Runs.{RunTypedOk};
ghost use Rattle.run_ends.specs.promise.RunSchemas.{ArePlainRuns, RunsOf, SchemaFound, RunsReads};
ghost use Rattle.run_ends.specs.RunAnswers.{runs_of, IsRunsFault, GivesRuns};

use crate::kinds::RunTyped;
use crate::laws::one_runs_answer;
use crate::schema_fault::RunsSchemaFault;
use data_types::{DataType, Typed, kinds_of_typed};
use raw_schema::RawSchema;
use root_check::{check_own_schema, child_types};
use std::alloc::Global;

/// The kinds of the schema of a run-end encoded array, or the first fault in the order of [`RunsSchemaFault`] ("The Arrow C Data
/// Interface", "Data type description -- format strings": `+r`). Names, flags and nullability aren't looked at. Memory is taken for
/// the kinds. What was made is given back where the answer is a fault.
pub fn read_runs(alloc: Global, schema: &RawSchema) -> Result<RunTyped, RunsSchemaFault>
    // What is answered are the schema's kinds, and it has no fault.
    ensures found { IfOk result (λ typed. RunsOf schema.now (runs_of typed)) }
    ensures valid { IfOk result (λ typed. RunTypedOk (runs_of typed)) }
    // Which fault it is.
    ensures fault { IfErr result (IsRunsFault schema.now) }
    // A schema of runs gives its kinds, and one that has a first fault gives it, unless memory runs out.
    ensures only { (read : Result RunTree SchemaFound) → RunsReads schema.now read → GivesRuns result read }
{
    one_runs_answer();
    runs_kinds(alloc, schema)
}

fn runs_kinds(alloc: Global, schema: &RawSchema) -> Result<RunTyped, RunsSchemaFault>
    ensures found { IfOk result (λ typed. RunsOf schema.now (runs_of typed)) }
    ensures valid { IfOk result (λ typed. RunTypedOk (runs_of typed)) }
    ensures fault { IfErr result (IsRunsFault schema.now) }
{
    if schema.is_released() {
        return Err(RunsSchemaFault::Released);
    }
    if !is_format(schema.format()) {
        return Err(RunsSchemaFault::Format);
    }
    check_own_schema(schema)?;
    let found = schema.n_children() as u64;
    if found != 2 {
        return Err(RunsSchemaFault::ChildCount { found });
    }
    kinds_below(alloc, schema)
}

/// Whether a format is that of run-end encoded arrays.
fn is_format(text: &[u8]) -> bool
    ensures { IsTrue result ↔ (text.now ≡ codes "+r") }
{
    text == b"+r".as_slice()
}

/// The kinds of a schema whose own parts are in order.
fn kinds_below(alloc: Global, schema: &RawSchema) -> Result<RunTyped, RunsSchemaFault>
    requires live { IsLive schema.now }
    requires plain { ArePlainRuns schema.now }
    requires count { length (children_of schema.now) ≡ 2 }
    ensures found { IfOk result (λ typed. RunsOf schema.now (runs_of typed)) }
    ensures valid { IfOk result (λ typed. RunTypedOk (runs_of typed)) }
    ensures fault { IfErr result (IsRunsFault schema.now) }
{
    let kids = child_types(alloc, schema)?;
    let (ends, values) = two_kids(kids);
    if !is_ends(&ends) {
        return Err(RunsSchemaFault::EndsType);
    }
    Ok(RunTyped { ends, values })
}

/// The two kinds of a list of two.
fn two_kids(kids: Vec<Typed>) -> (Typed, Typed)
    requires { length kids.items ≡ 2 }
    ensures { kids.items ≡ result.0 ∷ result.1 ∷ [] }
{
    let mut kids = kids;
    match (kids.pop(), kids.pop()) {
        (Some(values), Some(ends)) => (ends, values),
        _ => unreachable!(),
    }
}

/// Whether a kind is that of ends.
fn is_ends(typed: &Typed) -> bool
    ensures { IsTrue result ↔ IsEnds (typed_of typed.now) }
{
    kinds_of_typed(typed);
    match &typed.kind {
        DataType::Int { bits, signed: true } => {
            typed.dict.is_none() && (*bits == 16 || *bits == 32 || *bits == 64)
        }
        _ => false,
    }
}
