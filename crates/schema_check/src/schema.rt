//! The rules of a schema, and the kinds of one that meets them.
ghost use Rattle.std.specs.Prelude.{◌≡◌, ◌↔◌, ◌+◌, ◌<◌, ◌≤◌, IsTrue, Result, IfOk, IfErr, OnOk, map, length, codes};
ghost use Rattle.fmt_string.specs.promise.FormatString.{FormatIs};
ghost use Rattle.tree_model.specs.promise.TreeParts.{IsLive, children_of, dictionary_of};
ghost use Rattle.tree_model.specs.promise.TreeData.{trees, maybe_tree};
ghost use Rattle.raw_schema.specs.promise.Members.{SchemaTree, members_of};
ghost use Rattle.schema_check.specs.declared.schema.SchemaFault.TheVariants as faults;
ghost use Rattle.data_types.specs.promise.KindTrees.{KindTree, most_levels};
ghost use Rattle.data_types.specs.KindTrees.{TypedOk};
ghost use Rattle.data_types.specs.promise.TypedView.{typed_of};
ghost use Rattle.data_types.specs.TypedView.{dict_in};
ghost use Rattle.data_types.specs.promise.Ways.{steps_of};
ghost use Rattle.schema_check.specs.promise.Schemas.{MetaFits, ChildrenFit, IndexFits, IsPairNode, MapFits, KidsTyped, DictTyped, TypedFrom, TypedOf};
ghost use Rattle.schema_check.specs.promise.SchemaAnswers.{FirstFault, SchemaReads, MetaRefused};
ghost use Rattle.schema_check.specs.SchemaAnswers.{Gives, IsFirstFault, NodeOf, FaultHere, FaultBelow, FaultInKids};
ghost use Rattle.schema_check.specs.SchemaAnswers.{FaultInDict};

use crate::rule::SchemaRule;
use data_types::{DICTIONARY_STEP, DataType, Path, Typed};
use fmt_string::{FormatFault, read_format};
use raw_schema::RawSchema;
use schema_meta::{MetaFault, check_meta};
use std::alloc::{AllocError, AllocFailed, Global};

/// Why a schema has no tree of kinds.
#[derive(Clone, Copy, Debug, PartialEq, Eq)]
pub enum SchemaFault {
    /// The first rule that fails at the first node at which one does, in preorder: a node, its children, its dictionary.
    /// The fault inside a rule is never an out-of-memory.
    At { path: Path, rule: SchemaRule },
    /// Memory ran out; the schema may be in order or not.
    NoMemory,
}

impl From<AllocError> for SchemaFault {
    ghost from_gives = { λ _ e. e ≡ faults.NoMemory };

    fn from(_e: AllocError) -> SchemaFault {
        SchemaFault::NoMemory
    }
}

impl<T: Drop> From<AllocFailed<T>> for SchemaFault {
    ghost from_gives = { λ _ e. e ≡ faults.NoMemory };

    fn from(_e: AllocFailed<T>) -> SchemaFault {
        SchemaFault::NoMemory
    }
}

/// A law: a schema has one tree of kinds or one first fault.
pub fn one_schema_answer()
    ensures { (schema : SchemaTree) (first second : Result KindTree FirstFault) → SchemaReads schema first → SchemaReads schema second → first ≡ second }
{
    fmt_string::one_reading();
    schema_meta::one_reading();
}

/// A law: the kinds of a schema that meets each rule are what every call that takes a [`Typed`] asks for.
pub fn kinds_are_valid()
    ensures { (schema : SchemaTree) (typed : KindTree) → TypedOf schema typed → TypedOk typed }
{
    fmt_string::one_reading();
    fmt_string::spelling_reads_back();
    fmt_string::spelled_is_valid();
}

/// The kinds of a schema, or the first rule that fails at the first node at which one does ("The Arrow C Data
/// Interface", "The ArrowSchema structure", "Data type description -- format strings"). Names, flags and nullability
/// aren't looked at. A schema of more than 64 levels is walked to the node at level 65 and no deeper. What was made is
/// given back where the answer is a fault. Memory is taken for the tree of kinds alone, a node of it for each node of the
/// schema, and for the texts of its formats: metadata takes none, so its bytes never make the answer `NoMemory`.
pub fn check_schema(alloc: Global, schema: &RawSchema) -> Result<Typed, SchemaFault>
    // What is answered are the schema's kinds, and no rule fails.
    ensures found { IfOk result (λ typed. TypedOf schema.now (typed_of typed)) }
    ensures valid { IfOk result (λ typed. TypedOk (typed_of typed)) }
    // Which node and rule it is.
    ensures fault { IfErr result (IsFirstFault schema.now) }
    // A schema that meets each rule gives its kinds, and one that has a first fault gives it, unless memory runs out.
    ensures only { (read : Result KindTree FirstFault) → SchemaReads schema.now read → Gives result read }
{
    one_schema_answer();
    kinds_are_valid();
    typed_from(alloc, schema, &Path::root())
}

#[cycle(typed)]
#[tactic(auto, using(crate::proofs::SchemaParts::parts))]
fn typed_from(alloc: Global, schema: &RawSchema, path: &Path) -> Result<Typed, SchemaFault>
    requires { path.now.depth ≤ most_levels }
    ensures found { IfOk result (λ typed. TypedFrom (path.now.depth + 1) schema.now (typed_of typed)) }
    ensures fault { IfErr result (FaultBelow (path.now.depth + 1) schema.now (steps_of path.now)) }
{
    let kind = node_kind(alloc, schema, path)?;
    let kids = typed_kids(alloc, schema, path)?;
    let dict = typed_dictionary(alloc, schema, path)?;
    Ok(Typed { kind, dict, kids })
}

#[cycle(typed)]
fn typed_kids(alloc: Global, schema: &RawSchema, path: &Path) -> Result<Vec<Typed>, SchemaFault>
    requires live { IsLive schema.now }
    requires level { path.now.depth < 64 }
    ensures found { IfOk result (λ kids. KidsTyped (path.now.depth + 1 + 1) (trees (children_of schema.now)) (trees (map typed_of kids.items))) }
    ensures fault { IfErr result (FaultInKids (path.now.depth + 1 + 1) (children_of schema.now) (steps_of path.now)) }
{
    let count = schema.n_children() as usize;
    let mut kids = Vec::with_capacity(alloc, count)?;
    for i in 0..count {
        let kid = typed_from(alloc, schema.child(i), &path.down(i as u32))?;
        kids.push(kid)?;
    }
    Ok(kids)
}

#[cycle(typed)]
fn typed_dictionary(
    alloc: Global,
    schema: &RawSchema,
    path: &Path,
) -> Result<Option<Box<Typed>>, SchemaFault>
    requires live { IsLive schema.now }
    requires level { path.now.depth < 64 }
    ensures found { IfOk result (λ dict. DictTyped (path.now.depth + 1 + 1) (maybe_tree (dictionary_of schema.now)) (maybe_tree (dict_in dict))) }
    ensures fault { IfErr result (FaultInDict (path.now.depth + 1 + 1) (dictionary_of schema.now) (steps_of path.now)) }
{
    let Some(dictionary) = schema.dictionary() else {
        return Ok(None);
    };
    let typed = typed_from(alloc, dictionary, &path.down(DICTIONARY_STEP))?;
    Ok(Some(Box::new(alloc, typed)?))
}

fn at(path: &Path, rule: SchemaRule) -> SchemaFault
    ensures { result ≡ faults.At path.now rule }
{
    SchemaFault::At { path: *path, rule }
}

/// The kind of a node that meets each rule itself.
#[tactic(auto, using(crate::proofs::SchemaFails::fails))]
fn node_kind(alloc: Global, schema: &RawSchema, path: &Path) -> Result<DataType, SchemaFault>
    requires { path.now.depth ≤ most_levels }
    ensures found { IfOk result (NodeOf (path.now.depth + 1) schema.now) }
    ensures live { OnOk result (IsLive schema.now) }
    ensures level { OnOk result (path.now.depth < 64) }
    ensures fault { IfErr result (FaultHere (path.now.depth + 1) schema.now (steps_of path.now)) }
{
    if path.depth >= 64 {
        return Err(at(path, SchemaRule::Deep));
    }
    if schema.is_released() {
        return Err(at(path, SchemaRule::Released));
    }
    let kind = format_kind(alloc, schema, path)?;
    if let Err(fault) = check_metadata(schema) {
        return Err(at(path, SchemaRule::Meta(fault)));
    }
    check_parts(&kind, schema, path)?;
    Ok(kind)
}

/// The kind that a live node's format spells.
#[tactic(auto, using(crate::proofs::SchemaFails::fails))]
fn format_kind(alloc: Global, schema: &RawSchema, path: &Path) -> Result<DataType, SchemaFault>
    requires live { IsLive schema.now }
    requires level { path.now.depth < 64 }
    ensures found { IfOk result (FormatIs (members_of schema.now).format) }
    ensures fault { IfErr result (FaultHere (path.now.depth + 1) schema.now (steps_of path.now)) }
{
    match read_format(alloc, schema.format()) {
        Ok(kind) => Ok(kind),
        Err(FormatFault::NoMemory) => Err(SchemaFault::NoMemory),
        Err(FormatFault::At { rule, place }) => Err(at(
            path,
            SchemaRule::Format(FormatFault::At { rule, place }),
        )),
    }
}

/// Whether a live node's metadata, if it has any, spells pairs.
fn check_metadata(schema: &RawSchema) -> Result<(), MetaFault>
    requires live { IsLive schema.now }
    ensures found { OnOk result (MetaFits (members_of schema.now).metadata) }
    ensures fault { IfErr result (MetaRefused (members_of schema.now).metadata) }
{
    match schema.metadata() {
        None => Ok(()),
        Some(bytes) => check_meta(bytes),
    }
}

/// The rules of a live node's children and dictionary.
#[tactic(auto, using(crate::proofs::SchemaFails::fails))]
fn check_parts(kind: &DataType, schema: &RawSchema, path: &Path) -> Result<(), SchemaFault>
    requires live { IsLive schema.now }
    requires level { path.now.depth < 64 }
    requires format { FormatIs (members_of schema.now).format kind.now }
    requires meta { MetaFits (members_of schema.now).metadata }
    ensures children { OnOk result (ChildrenFit kind.now (trees (children_of schema.now))) }
    ensures index { OnOk result (IndexFits kind.now (maybe_tree (dictionary_of schema.now))) }
    ensures map { OnOk result (MapFits kind.now (trees (children_of schema.now))) }
    ensures fault { IfErr result (FaultHere (path.now.depth + 1) schema.now (steps_of path.now)) }
{
    if !children_fit(kind, schema) {
        return Err(at(path, SchemaRule::ChildCount));
    }
    if !index_fits(kind, schema) {
        return Err(at(path, SchemaRule::DictIndexType));
    }
    if !map_fits(kind, schema) {
        return Err(at(path, SchemaRule::MapShape));
    }
    Ok(())
}

#[tactic(auto, using(crate::proofs::SchemaFails::counts))]
fn children_fit(kind: &DataType, schema: &RawSchema) -> bool
    requires { IsLive schema.now }
    ensures { IsTrue result ↔ ChildrenFit kind.now (trees (children_of schema.now)) }
{
    match kind {
        DataType::List { .. } | DataType::FixedList { .. } | DataType::Map => {
            schema.n_children() == 1
        }
        DataType::Struct => true,
        _ => schema.n_children() == 0,
    }
}

fn index_fits(kind: &DataType, schema: &RawSchema) -> bool
    requires { IsLive schema.now }
    ensures { IsTrue result ↔ IndexFits kind.now (maybe_tree (dictionary_of schema.now)) }
{
    if schema.dictionary().is_none() {
        return true;
    }
    match kind {
        DataType::Int { .. } => true,
        _ => false,
    }
}

#[tactic(auto, using(crate::proofs::SchemaFails::counts))]
fn map_fits(kind: &DataType, schema: &RawSchema) -> bool
    requires live { IsLive schema.now }
    requires children { ChildrenFit kind.now (trees (children_of schema.now)) }
    ensures { IsTrue result ↔ MapFits kind.now (trees (children_of schema.now)) }
{
    match kind {
        DataType::Map => is_pair(schema.child(0)),
        _ => true,
    }
}

/// Whether a map's child is a live struct of two, by its text and its own children.
#[tactic(auto, using(crate::proofs::SchemaFails::counts))]
fn is_pair(child: &RawSchema) -> bool
    ensures { IsTrue result ↔ IsPairNode child.now }
{
    if child.is_released() {
        return false;
    }
    if !is_struct_text(child.format()) {
        return false;
    }
    has_two(child)
}

fn is_struct_text(text: &[u8]) -> bool
    ensures { IsTrue result ↔ (text.now ≡ codes "+s") }
{
    text == b"+s".as_slice()
}

fn has_two(schema: &RawSchema) -> bool
    requires { IsLive schema.now }
    ensures { IsTrue result ↔ (length (children_of schema.now) ≡ 2) }
{
    schema.n_children() == 2
}
