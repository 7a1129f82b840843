//! Laws of the answers on schemas, and of arrays at which no rule fails. The calls do nothing.
ghost use Rattle.std.specs.Prelude.{◌≡◌, ℕ, List, Result, None, length};
ghost use Rattle.std.specs.List.{AllZip};
ghost use Rattle.raw_schema.specs.promise.Members.{SchemaTree};
ghost use Rattle.raw_array.specs.promise.Members.{ArrayTree};
ghost use Rattle.data_types.specs.promise.KindTrees.{KindTree};
ghost use Rattle.layout_rules.specs.promise.Walk.{LayoutOk};
ghost use Rattle.root_check.specs.promise.OwnRules.{own_fault};
ghost use Rattle.root_check.specs.OwnRules.{OwnHolds};
ghost use Rattle.root_check.specs.promise.Children.{children_fault};
ghost use Rattle.root_check.specs.declared.own_schema.OwnSchemaFault.{OwnSchemaFault};
ghost use Rattle.root_check.specs.promise.Schemas.{OwnSchemaReads, KidFault};
ghost use Rattle.root_check.specs.Schemas.{KidsRead};

/// A law: a schema's own parts and its children have one answer each.
pub fn one_root_answer()
    ensures own { (schema : SchemaTree) (first second : Result (Unit {0}) OwnSchemaFault)
        → OwnSchemaReads schema first → OwnSchemaReads schema second → first ≡ second }
    ensures kids { (children : List SchemaTree) (first second : Result (List KindTree) KidFault)
        → KidsRead children first → KidsRead children second → first ≡ second }
{
    schema_meta::one_reading();
    schema_check::one_schema_answer();
}

/// A law over all trees: what holds of an array at which none of the rules on its own numbers and parts fails, and that its
/// children are lawful where none is at fault.
pub fn faultless_roots()
    ensures own { (buffers children : ℕ) (array : ArrayTree) → own_fault buffers children array ≡ None → OwnHolds buffers children array }
    ensures children { (kids : List KindTree) (children : List ArrayTree) → length children ≡ length kids → children_fault kids 0 children ≡ None
        → AllZip LayoutOk kids children }
{}
