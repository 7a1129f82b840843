//! Texts of types and of stages, and the columns behind stages.
ghost use Rattle.std.specs.Prelude.{◌<◌, All, IfSome, length};
ghost use Rattle.data_types.specs.ColumnForms.{KindsOk};
ghost use Rattle.data_types.specs.ColumnView.{kind_of};
ghost use Rattle.data_types.specs.Kinds.{KindOk};

use crate::subject::{no_memory, text_of};
use crate::transcript::Transcript;
use case_text::spelling_of;
use data_types::{ColKind, ColumnType, clone_kind};
use stage_plan::{StageText, TypeEntry, read_stage, read_types, type_plan};
use std::alloc::Global;
use std::io;
use unit_pass::Name;

/// `stage TEXT`: the stage, as it is printed, or the fault.
pub(crate) fn tell_stage(alloc: Global, text: &str, told: &mut Transcript) -> io::Result<()> {
    match read_stage(alloc, text) {
        Ok(stage) => Ok(told.answer(alloc, format!(in alloc; "{stage:?}")?.as_str())?),
        Err(fault) => Ok(told.fault(alloc, fault.to_string(alloc)?.as_str())?),
    }
}

/// `types TEXT`: the name and the type of each entry, or the first entry at fault.
pub(crate) fn tell_types(alloc: Global, text: &str, told: &mut Transcript) -> io::Result<()> {
    let entries = match read_types(alloc, text) {
        Ok(entries) => entries,
        Err(fault) => return Ok(told.fault(alloc, fault.to_string(alloc)?.as_str())?),
    };
    for entry in &entries {
        let name = spelling_of(alloc, entry.name.as_slice())?;
        told.answer(
            alloc,
            format!(in alloc; "{name}: {:?}", entry.kind)?.as_str(),
        )?;
    }
    Ok(())
}

/// The columns of entries.
pub(crate) fn columns_from(alloc: Global, entries: &[TypeEntry]) -> Option<Vec<ColumnType>>
    requires { All (λ e. KindOk e.kind) entries.now }
    ensures { IfSome result (λ columns. All (λ c. KindsOk (kind_of c.kind)) columns.items) }
{
    let mut columns = Vec::new(alloc);
    for entry in entries {
        columns.push(column_from(alloc, entry)?).ok()?;
    }
    Some(columns)
}

/// The column of an entry.
fn column_from(alloc: Global, entry: &TypeEntry) -> Option<ColumnType>
    requires { KindOk entry.now.kind }
    ensures { IfSome result (λ column. KindsOk (kind_of column.kind)) }
{
    let name = Name::from_slice(alloc, entry.name.as_slice()).ok()?;
    match clone_kind(alloc, &entry.kind) {
        Ok(kind) => Some(ColumnType {
            name,
            kind: ColKind::Flat(kind),
        }),
        Err(_) => None,
    }
}

/// The stages of texts, or the first text that is none.
fn stages_of(alloc: Global, texts: &[Vec<u8>]) -> io::Result<Option<Vec<StageText>>> {
    let mut stages = Vec::new(alloc);
    for text in texts {
        match read_stage(alloc, text_of(text.as_slice())) {
            Ok(stage) => stages.push(stage)?,
            Err(_fault) => return Ok(None),
        }
    }
    Ok(Some(stages))
}

/// `plan TYPES STAGE..`: how many steps there are and the columns behind the last, or the first stage at fault.
pub(crate) fn tell_plan(
    alloc: Global,
    types: &str,
    texts: &[Vec<u8>],
    told: &mut Transcript,
) -> io::Result<()> {
    let Ok(entries) = read_types(alloc, types) else {
        return Ok(told.fault(alloc, "no types")?);
    };
    let Some(columns) = columns_from(alloc, entries.as_slice()) else {
        return Err(no_memory());
    };
    match stages_of(alloc, texts)? {
        Some(stages) if stages.len() < 100 => tell_columns(alloc, columns, stages.as_slice(), told),
        _ => Ok(told.fault(alloc, "no stages")?),
    }
}

/// Tells the plan of columns and stages.
fn tell_columns(
    alloc: Global,
    columns: Vec<ColumnType>,
    stages: &[StageText],
    told: &mut Transcript,
) -> io::Result<()>
    requires kinds { All (λ c. KindsOk (kind_of c.kind)) columns.items }
    requires few { length stages.now < 100 }
{
    let plan = match type_plan(alloc, columns, stages) {
        Ok(plan) => plan,
        Err(fault) => return Ok(told.fault(alloc, fault.to_string(alloc)?.as_str())?),
    };
    let (steps, links) = (plan.steps.len(), plan.links.len());
    let mut line = format!(in alloc; "{steps} steps, {links} links:")?;
    if let Some(columns) = plan.links.last() {
        for column in columns {
            line.push(' ')?;
            line.push_str(spelling_of(alloc, column.name.as_slice())?.as_str())?;
        }
    }
    Ok(told.answer(alloc, line.as_str())?)
}
