//! The entries of a schema text, each a name and a type.
ghost use Rattle.std.specs.Prelude.{◌≡◌, ◌≢◌, ◌+◌, ◌==◌, false, true, length, List, All, Option, Result, IfOk, IfErr, IfSome, IfNone, map, option_map};
ghost use Rattle.std.specs.Prelude.{position};
ghost use Rattle.data_types.specs.declared.kind.DataType.{DataType as AType};
ghost use Rattle.data_types.specs.promise.Kinds.{is_column_type};
ghost use Rattle.data_types.specs.Kinds.{KindOk};
ghost use Rattle.stage_plan.specs.declared.fault.TypesFault.{TypesFault as AFault};
ghost use Rattle.stage_plan.specs.declared.fault.TypesFault.TheVariants as faults;
ghost use Rattle.stage_plan.specs.declared.types.TypeEntry.{TypeEntry as AnEntry};
ghost use Rattle.stage_plan.specs.promise.Types.{parts, CutsAt, Lacks, TypeReads, TypesIs, TypesFaultIs, Reads};
ghost use Rattle.stage_plan.specs.Types.{EntryReads, Gives};
ghost use Rattle.stage_plan.specs.Code.{entry_of};

use crate::{TypesFault, TypesRule};
use data_types::{DataType, is_column_type};
use fmt_string::{FormatFault, read_format, spelled_is_valid};
use std::alloc::Global;
use std::collections::HashSet;
use unit_pass::{Name, NoMemory};

/// An entry of a schema text: the type of the column of a name.
#[derive(Debug, Drop)]
pub struct TypeEntry {
    /// The name, which may be empty.
    pub name: Name,
    /// The type that its format string spells.
    pub kind: DataType,
}

/// An entry whose name is lent from the text.
#[derive(Drop)]
struct Entry<'a> {
    name: &'a [u8],
    kind: DataType,
}

/// The entries of a text, in order: names, each with the first `:` and a format string behind it, apart by `;` ("The
/// Arrow C Data Interface", "Data type description -- format strings").
///
/// The first entry at fault counts, and in it `BadEntry` before `Twice`. The types of columns are those whose values a
/// field of a CSV record can spell; of these `w:N` has N from 1 to 65,536, and a decimal has 128 bits and a scale from
/// 0 to its precision. A text has one answer, which is given unless memory runs out.
pub fn read_types(alloc: Global, text: &str) -> Result<Vec<TypeEntry>, TypesFault>
    // What is read are the text's entries.
    ensures found { IfOk result (λ entries. TypesIs text.now entries.items) }
    // Each type is a proper one.
    ensures valid { IfOk result (λ entries. All (λ e. KindOk e.kind) entries.items) }
    // Each is the type of a column.
    ensures column { IfOk result (λ entries. All (λ e. is_column_type e.kind ≡ true) entries.items) }
    // Which fault it is.
    ensures fault { IfErr result (λ f. f ≢ faults.NoMemory → TypesFaultIs text.now f) }
    // A text with entries is read, and a fault is answered, unless memory runs out.
    ensures only { (read : Result (List AnEntry) AFault) → Reads text.now read → Gives result read }
{
    let parts = parts(alloc, text.as_bytes())?;
    let mut names = HashSet::new(alloc);
    let mut entries = Vec::new(alloc);
    for part in &parts {
        let Some(entry) = read_entry(alloc, part)? else {
            return Err(fault_behind(entries.as_slice(), TypesRule::BadEntry));
        };
        let added = names.insert(entry.name)?;
        if !added {
            return Err(fault_behind(entries.as_slice(), TypesRule::Twice));
        }
        let name = Name::from_slice(alloc, entry.name)?;
        let kind = entry.kind;
        entries.push(TypeEntry { name, kind })?;
    }
    spelled_is_valid();
    Ok(entries)
}

/// The fault of the entry behind these.
fn fault_behind(entries: &[TypeEntry], rule: TypesRule) -> TypesFault
    ensures { result ≡ faults.At (length entries.now + 1) rule }
{
    TypesFault::At {
        entry: entries.len() as u64 + 1,
        rule,
    }
}

/// The parts of a text between its `;`.
fn parts<'a>(alloc: Global, text: &'a [u8]) -> Result<Vec<&'a [u8]>, NoMemory>
    ensures { IfOk result (λ ps. map (λ p. p.now) ps.items ≡ parts text.now) }
{
    let mut parts = Vec::new(alloc);
    let mut rest = text;
    while let Some((part, behind)) = cut(rest, b';') {
        parts.push(part)?;
        rest = behind;
    }
    parts.push(rest)?;
    Ok(parts)
}

/// The text before the first such byte, and the text behind it.
fn cut(text: &[u8], byte: u8) -> Option<(&[u8], &[u8])>
    ensures found { IfSome result (λ x. CutsAt byte text.now x.0.now x.1.now) }
    ensures none { IfNone result (Lacks byte text.now) }
{
    let Some(place) = place_of(text, byte) else {
        return None;
    };
    let (front, behind) = text.split_at(place);
    Some((front, &behind[1..]))
}

/// The first place of the byte.
fn place_of(text: &[u8], byte: u8) -> Option<usize>
    ensures first { result ≡ position (λ b. b == byte) text.now }
    ensures none { IfNone result (All (λ b. (b == byte) ≡ false) text.now) }
{
    text.iter().position(|b| *b == byte)
}

/// The entry that the part is.
fn read_entry<'a>(alloc: Global, part: &'a [u8]) -> Result<Option<Entry<'a>>, NoMemory>
    ensures found { IfOk result (λ e. EntryReads part.now (option_map entry_of e)) }
    ensures only { IfOk result (λ e. (other : Option AnEntry) → EntryReads part.now other → other ≡ option_map entry_of e) }
{
    let Some((name, format)) = cut(part, b':') else {
        return Ok(None);
    };
    let Some(kind) = column_type(alloc, format)? else {
        return Ok(None);
    };
    Ok(Some(Entry { name, kind }))
}

/// The type that the format spells, where it is one of a column.
fn column_type(alloc: Global, format: &[u8]) -> Result<Option<DataType>, NoMemory>
    ensures found { IfOk result (TypeReads format.now) }
    ensures only { IfOk result (λ kind. (other : Option AType) → TypeReads format.now other → other ≡ kind) }
{
    match read_format(alloc, format) {
        Ok(kind) => {
            if is_column_type(&kind) {
                Ok(Some(kind))
            } else {
                Ok(None)
            }
        }
        Err(FormatFault::At { .. }) => Ok(None),
        Err(FormatFault::NoMemory) => Err(NoMemory),
    }
}
