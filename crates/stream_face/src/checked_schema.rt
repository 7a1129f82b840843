//! A schema that was checked, with its kinds.
ghost use Rattle.std.specs.Prelude.{◌≡◌, ◌+◌, ◌≤◌, IfOk, IfErr};
ghost use Rattle.tree_model.specs.promise.TreeData.{Released};
ghost use Rattle.tree_model.specs.promise.TreeParts.{IsLive};
ghost use Rattle.tree_model.specs.promise.TreeCost.{Nodes};
ghost use Rattle.data_types.specs.promise.KindTrees.{KindTree};
ghost use Rattle.data_types.specs.KindTrees.{TypedOk};
ghost use Rattle.schema_check.specs.promise.Schemas.{TypedOf};
ghost use Rattle.schema_check.specs.SchemaAnswers.{IsFirstFault};
ghost use Rattle.data_types.specs.promise.TypedView.{typed_of};
ghost use Rattle.schema_check.specs.declared.schema.SchemaFault.TheVariants as schemas;
ghost use Rattle.unit_pass.specs.declared.pass.TheConstants.{SUPPLY};

use data_types::Typed;
use raw_schema::RawSchema;
use schema_check::{SchemaFault, check_schema, one_schema_answer};
use std::alloc::Global;
use std::marker::Model;
use unit_pass::{Pass, SUPPLY};

/// A schema and its kinds. Contracts see both. Once the schema is released, the kinds mean nothing.
pub(crate) struct CheckedSchema {
    schema: RawSchema,
    typed: Typed,
}

impl Model for CheckedSchema {
    ghost use Rattle.stream_face.specs.Checked.{CheckedSchemaSchema, AreKinds};
    ghost use Rattle.std.specs.Coded.{codes};
    ghost use Rattle.raw_schema.specs.Members.{coded_schema};
    ghost use Rattle.data_types.specs.contracts.typed.Typed as kinds;

    ghost Value = { CheckedSchemaSchema };

    ghost coded = { Prim.hlevel (codes, coded_schema, kinds.the_row.coded) };

    ghost view = { λ s. record { schema = s.schema; typed = s.typed } };

    ghost invariant = { λ s. AreKinds s.schema s.typed };
}

impl CheckedSchema {
    /// Checks a schema and keeps it.
    #[inline(never)]
    pub(crate) fn of(
        alloc: Global,
        schema: RawSchema,
    ) -> Result<CheckedSchema, (RawSchema, SchemaFault)>
        ensures schema { IfOk result (λ known. known.schema ≡ schema) }
        ensures live { IfOk result (λ known. IsLive schema) }
        ensures kinds { IfOk result (λ known. TypedOf schema (typed_of known.typed)) }
        ensures back { IfErr result (λ refused. refused.0 ≡ schema) }
        ensures fault { IfErr result (λ refused. IsFirstFault schema refused.1) }
        ensures only { (kinds : KindTree) → TypedOf schema kinds → IfErr result (λ refused. refused.1 ≡ schemas.NoMemory) }
    {
        match check_schema(alloc, &schema) {
            Ok(typed) => Ok(CheckedSchema { schema, typed }),
            Err(fault) => Err((schema, fault)),
        }
    }

    pub(crate) fn schema(&self) -> &RawSchema
        ensures { result.now ≡ self.now.schema }
    {
        &self.schema
    }

    /// The kinds of the schema, which has no others.
    pub(crate) fn typed(&self) -> &Typed
        requires { IsLive self.now.schema }
        ensures typed { result.now ≡ self.now.typed }
        ensures kinds { TypedOf self.now.schema (typed_of self.now.typed) }
        ensures types { TypedOk (typed_of self.now.typed) }
        ensures only { (kinds : KindTree) → TypedOf self.now.schema kinds → kinds ≡ typed_of self.now.typed }
    {
        one_schema_answer();
        &self.typed
    }

    pub(crate) fn release(&mut self, pass: &mut Pass)
        requires { pass.old.units + Nodes self.old.schema ≤ SUPPLY }
        ensures released { self.new.schema ≡ Released }
        ensures units { pass.new.units ≡ pass.old.units + Nodes self.old.schema }
        ensures blocks { pass.new.blocks ≡ pass.old.blocks }
        ensures nodes { pass.new.nodes ≡ pass.old.nodes }
    {
        let _acted = self.schema.release(pass);
    }

    pub(crate) fn discard(self)
        requires { self.schema ≡ Released }
    {
        let CheckedSchema { schema, typed: _ } = self;
        schema.discard();
    }
}
