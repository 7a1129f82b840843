//! Two structures that both checks accepted, kept together.
ghost use Rattle.std.specs.Prelude.{◌≡◌, IfOk, IfErr};
ghost use Rattle.schema_check.specs.declared.schema.SchemaFault.TheVariants.{NoMemory};
ghost use Rattle.data_types.specs.promise.KindTrees.{KindTree};
ghost use Rattle.data_types.specs.KindTrees.{TypedOk};
ghost use Rattle.schema_check.specs.promise.Schemas.{TypedOf};
ghost use Rattle.data_types.specs.promise.TypedView.{typed_of};
ghost use Rattle.layout_rules.specs.promise.Values.{values_of};
ghost use Rattle.layout_rules.specs.promise.Walk.{LayoutOk};
ghost use Rattle.tree_check.specs.declared.imported.ImportFault.TheVariants.{Schema};
ghost use Rattle.tree_check.specs.Imports.{AreChecked};
ghost use Rattle.tree_check.specs.ImportFaults.{IsImportFault};
ghost use Rattle.arr_import.specs.Window.{whole, items_of};
ghost use Rattle.arr_import.specs.Cols.{window_of};

use arr_import::Col;
use data_types::Typed;
use layout_check::check_array;
use layout_rules::LayoutFault;
use raw_array::RawArray;
use raw_schema::RawSchema;
use schema_check::{SchemaFault, check_schema, one_schema_answer};
use std::alloc::Global;
use std::fmt;
use std::marker::Model;

/// Why two structures are not taken.
#[derive(Clone, Copy, Debug, PartialEq, Eq)]
pub enum ImportFault {
    /// The first fault of the schema, or out of memory in its check.
    Schema(SchemaFault),
    /// The first fault of the array, against the schema's kinds.
    Layout(LayoutFault),
}

impl fmt::Display for ImportFault {
    ghost use Rattle.std.specs.Prelude.{Some};
    ghost use Rattle.tree_check.specs.FaultTexts.{import_fault_text};

    ghost output = { λ fault. Some (import_fault_text fault) };

    fn fmt<W: fmt::Write>(&self, f: &mut fmt::Formatter<W>) -> fmt::Result {
        match self {
            ImportFault::Schema(fault) => write!(f, "{fault}"),
            ImportFault::Layout(fault) => write!(f, "{fault}"),
        }
    }
}

impl std::error::Error for ImportFault {}

/// A schema, an array that meets it, and the schema's kinds. It can't be dropped: [`Imported::into_raw`] gives all three back.
pub struct Imported {
    schema: RawSchema,
    array: RawArray,
    typed: Typed,
}

impl Model for Imported {
    ghost use Rattle.tree_check.specs.Imports.{ImportedTrees, AreChecked};
    ghost use Rattle.std.specs.Coded.{codes};
    ghost use Rattle.raw_schema.specs.Members.{coded_schema};
    ghost use Rattle.raw_array.specs.Members.{coded_array};
    ghost use Rattle.data_types.specs.contracts.typed.Typed as kinds;

    ghost Value = { ImportedTrees };

    ghost coded = { Prim.hlevel (codes, coded_schema, coded_array, kinds.the_row.coded) };

    ghost view = { λ s. record { schema = s.schema; array = s.array; typed = s.typed } };

    ghost invariant = { λ s. AreChecked s.schema s.array s.typed };
}

/// Takes a schema and an array that meets it ("The Arrow C Data Interface", "Importing"). The schema is checked first, and
/// then the array against the schema's kinds, each as its check does ([`check_schema`], [`check_array`]); the caller that
/// needs a table calls [`layout_check::check_chunk`]. On a fault both structures are handed back whole. The only out-of-memory is
/// the schema check's.
pub fn import(
    alloc: Global,
    schema: RawSchema,
    array: RawArray,
) -> Result<Imported, (RawSchema, RawArray, ImportFault)>
    ensures taken { IfOk result (λ imported. (imported.schema ≡ schema) × (imported.array ≡ array) × AreChecked schema array imported.typed) }
    ensures back { IfErr result (λ refused. (refused.0 ≡ schema) × (refused.1 ≡ array)) }
    ensures fault { IfErr result (λ refused. IsImportFault schema array refused.2) }
    // Two structures that both checks accept are taken, unless memory runs out.
    ensures only { (typed : KindTree) → TypedOf schema typed → LayoutOk typed array → IfErr result (λ refused. refused.2 ≡ Schema NoMemory) }
{
    one_schema_answer();
    let typed = match check_schema(alloc, &schema) {
        Ok(typed) => typed,
        Err(fault) => return Err((schema, array, ImportFault::Schema(fault))),
    };
    match check_array(&typed, &array) {
        Ok(()) => Ok(Imported {
            schema,
            array,
            typed,
        }),
        Err(fault) => Err((schema, array, ImportFault::Layout(fault))),
    }
}

impl Imported {
    /// The array's items, as a column.
    pub fn col(&self) -> Col<'_>
        ensures window { window_of result ≡ whole (typed_of self.now.typed) self.now.array }
        ensures values { items_of (window_of result) ≡ values_of (typed_of self.now.typed) self.now.array }
    {
        Col::of(&self.typed, &self.array)
    }

    /// The schema's kinds.
    pub fn typed(&self) -> &Typed
        ensures typed { result.now ≡ self.now.typed }
        ensures kinds { TypedOf self.now.schema (typed_of self.now.typed) }
        ensures types { TypedOk (typed_of self.now.typed) }
    {
        &self.typed
    }

    /// The array, lent. It meets the schema's kinds.
    pub fn array(&self) -> &RawArray
        ensures array { result.now ≡ self.now.array }
        ensures lawful { LayoutOk (typed_of self.now.typed) self.now.array }
    {
        &self.array
    }

    /// The two structures as they came, and the kinds that the array was checked with. A window or a share of the array meets
    /// the same kinds (laws of `array_laws`), so it is read by them ([`Col::of`]) without a second check.
    pub fn into_raw(self) -> (RawSchema, RawArray, Typed)
        ensures schema { result.0 ≡ self.schema }
        ensures array { result.1 ≡ self.array }
        ensures typed { result.2 ≡ self.typed }
        ensures kinds { TypedOf result.0 (typed_of result.2) }
        ensures types { TypedOk (typed_of result.2) }
        ensures lawful { LayoutOk (typed_of result.2) result.1 }
    {
        let Imported {
            schema,
            array,
            typed,
        } = self;
        (schema, array, typed)
    }
}
