//! A law of the schemas that a text can spell. The call does nothing.
ghost use Rattle.std.specs.Prelude.{◌⊎◌, ℕ, Result};
ghost use Rattle.data_types.specs.promise.KindTrees.{KindTree};
ghost use Rattle.raw_schema.specs.promise.Members.{SchemaTree, members_of};
ghost use Rattle.schema_check.specs.promise.SchemaAnswers.{FirstFault, MetaRefused, SchemaReads};
ghost use Rattle.schema_check.specs.promise.Schemas.{MetaFits};
ghost use Rattle.schema_meta.specs.declared.fault.MetaFault.{MetaFault as AMetaFault};
ghost use Rattle.tree_text.specs.TreeText.{SchemaFits};

/// A law: a schema whose nodes lines can spell, on any level, has kinds or a first fault when it is checked as a root, and
/// its metadata is in order or has a first fault.
pub fn some_schema_answer()
    ensures kinds { (level : ℕ) (schema : SchemaTree) → SchemaFits level schema → (read : Result KindTree FirstFault) × SchemaReads schema read }
    ensures metadata { (level : ℕ) (schema : SchemaTree) → SchemaFits level schema
        → MetaFits (members_of schema).metadata ⊎ ((fault : AMetaFault) × MetaRefused (members_of schema).metadata fault) }
{
    fmt_string::one_reading();
}
