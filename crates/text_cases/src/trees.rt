//! Trees of the C Data Interface as lines of text: their reports, their items, and the faults of those that aren't lawful.
ghost use Rattle.std.specs.Prelude.{◌≡◌, ◌+◌};
ghost use Rattle.raw_array.specs.promise.Members.{Cost};
ghost use Rattle.tree_model.specs.promise.TreeCost.{Nodes};
ghost use Rattle.unit_pass.specs.declared.pass.TheConstants.{SUPPLY};

use crate::items::tell_column;
use crate::subject::no_memory;
use crate::transcript::Transcript;
use crate::ways::tell_ways_of;
use arr_import::Col;
use layout_check::{check_array, check_chunk, chunk_passes, nulls_of};
use raw_array::RawArray;
use raw_schema::RawSchema;
use schema_check::{SchemaFault, SchemaRule, check_schema};
use std::alloc::{AllocError, Global};
use std::io;
use tree_check::{ImportFault, check_tree, import};
use tree_text::{TextFault, read_tree, report};
use unit_pass::{Pass, open_desk};

/// What is written of a tree that is lawful.
#[derive(Clone, Copy)]
pub(crate) enum TreeCase {
    /// A line for each node, and what was made.
    Report,
    /// That it is lawful.
    Verdict,
    /// How many null items it has, and whether it is a chunk.
    Chunk,
}

/// Tells the fault of a text.
fn tell_text_fault(alloc: Global, fault: TextFault, told: &mut Transcript) -> io::Result<()> {
    Ok(told.fault(alloc, fault.to_string(alloc)?.as_str())?)
}

/// Tells the fault of a schema, with what is wrong in a format string or in metadata.
fn tell_schema_fault(alloc: Global, fault: &SchemaFault, told: &mut Transcript) -> io::Result<()> {
    let mut text = fault.to_string(alloc)?;
    match fault {
        SchemaFault::At {
            rule: SchemaRule::Format(format),
            ..
        } => text.push_str(format!(in alloc; " ({format})")?.as_str())?,
        SchemaFault::At {
            rule: SchemaRule::Meta(meta),
            ..
        } => text.push_str(format!(in alloc; " ({meta})")?.as_str())?,
        _ => {}
    }
    Ok(told.fault(alloc, text.as_str())?)
}

/// Tells what is asked of a tree that is lawful, or the first fault of its schema or of its array.
fn tell_checked(
    alloc: Global,
    schema: &RawSchema,
    array: &RawArray,
    asked: TreeCase,
    told: &mut Transcript,
) -> io::Result<()> {
    let typed = match check_schema(alloc, schema) {
        Ok(typed) => typed,
        Err(fault) => return tell_schema_fault(alloc, &fault, told),
    };
    if let Err(fault) = check_array(&typed, array) {
        return Ok(told.fault(alloc, fault.to_string(alloc)?.as_str())?);
    }
    match asked {
        TreeCase::Verdict => Ok(told.answer(alloc, "ok")?),
        TreeCase::Report => match report(alloc, &typed, array) {
            Ok(text) => Ok(told.text(alloc, text.as_slice())?),
            Err(_no_memory) => Err(no_memory()),
        },
        TreeCase::Chunk => {
            let nulls = format!(in alloc; "{} nulls", nulls_of(&typed, array))?;
            told.answer(alloc, nulls.as_str())?;
            let passes = chunk_passes(&typed, array);
            match check_chunk(&typed, array) {
                Ok(()) if passes => Ok(told.answer(alloc, "a chunk")?),
                Err(fault) if !passes => Ok(told.fault(alloc, fault.to_string(alloc)?.as_str())?),
                _ => Ok(told.fault(alloc, "the two checks of a chunk differ")?),
            }
        }
    }
}

/// `tree`, `verdict` and `chunk`, with a tree as input: what is asked of it, or its first fault; for a report how much was made.
pub(crate) fn tell_tree(
    alloc: Global,
    text: &[u8],
    asked: TreeCase,
    told: &mut Transcript,
) -> io::Result<()> {
    let (desk, mut pass) = open_desk();
    let came = match read_tree(alloc, text, &mut pass) {
        Ok((schema, array)) => {
            let came = tell_checked(alloc, &schema, &array, asked, told);
            schema.end(&mut pass);
            array.end(&mut pass);
            came
        }
        Err(fault) => tell_text_fault(alloc, fault, told),
    };
    let audit = desk.close(pass);
    came?;
    match asked {
        TreeCase::Report => Ok(told.made(alloc, &audit)?),
        _ => Ok(()),
    }
}

/// The tree below another one: these lines come before its schema's first line, and those before its array's.
fn below(alloc: Global, text: &[u8], schema: &[u8], array: &[u8]) -> Result<Vec<u8>, AllocError> {
    let mut made = Vec::new(alloc);
    let (mut schema, mut array) = (Some(schema), Some(array));
    for line in text.split(|byte| *byte == b'\n') {
        let above = match line.first() {
            Some(b'S') => schema.take(),
            Some(b'A') => array.take(),
            _ => None,
        };
        if let Some(above) = above {
            made.extend_from_slice(above)?;
        }
        if !line.is_empty() {
            made.extend_from_slice(line)?;
            made.push(b'\n')?;
        }
    }
    Ok(made)
}

/// `places`, with a tree as input: its first fault as it is, as a child of a struct, and there behind a dictionary.
pub(crate) fn tell_places(alloc: Global, text: &[u8], told: &mut Transcript) -> io::Result<()> {
    tell_tree(alloc, text, TreeCase::Verdict, told)?;
    let child = below(alloc, text, b"S =+s ~ 0 1 0 ~\n", b"A 0 0 0 1 1 0\nB ~\n")?;
    tell_tree(alloc, child.as_slice(), TreeCase::Verdict, told)?;
    let behind = below(
        alloc,
        child.as_slice(),
        b"S =i ~ 0 0 1 ~\n",
        b"A 0 0 0 2 0 1\nB ~\nB ~\n",
    )?;
    tell_tree(alloc, behind.as_slice(), TreeCase::Verdict, told)
}

/// `check`, with a tree as input: the report or the fault of the one call that checks a text, and how much was made.
pub(crate) fn tell_check(alloc: Global, text: &[u8], told: &mut Transcript) -> io::Result<()> {
    let (desk, mut pass) = open_desk();
    let came = check_tree(alloc, text, &mut pass);
    let audit = desk.close(pass);
    match came {
        Ok(report) => told.text(alloc, report.as_slice())?,
        Err(fault) => told.fault(alloc, fault.to_string(alloc)?.as_str())?,
    }
    Ok(told.made(alloc, &audit)?)
}

/// What is written of a tree that is taken in.
#[derive(Clone, Copy)]
pub(crate) enum Read {
    /// Its items.
    Items,
    /// The common ways in which all of them are read.
    Ways,
}

/// Tells what is asked of a column.
fn tell_read(alloc: Global, col: &Col<'_>, read: Read, told: &mut Transcript) -> io::Result<()> {
    match read {
        Read::Items => tell_column(alloc, col, told),
        Read::Ways => tell_ways_of(alloc, col, told),
    }
}

/// Tells what is asked of a tree that is taken in, or its fault, and releases it.
fn tell_imported(
    alloc: Global,
    schema: RawSchema,
    array: RawArray,
    read: Read,
    told: &mut Transcript,
    pass: &mut Pass,
) -> io::Result<()>
    requires { pass.old.units + (Nodes schema + Cost array) ≡ SUPPLY }
    ensures { pass.new.units ≡ SUPPLY }
{
    let (schema, array, came) = match import(alloc, schema, array) {
        Ok(imported) => {
            let came = tell_read(alloc, &imported.col(), read, told);
            let (schema, array, _typed) = imported.into_raw();
            (schema, array, came)
        }
        Err((schema, array, fault)) => (schema, array, tell_import_fault(alloc, &fault, told)),
    };
    schema.end(pass);
    array.end(pass);
    came
}

/// Tells why a tree isn't taken in.
fn tell_import_fault(alloc: Global, fault: &ImportFault, told: &mut Transcript) -> io::Result<()> {
    match fault {
        ImportFault::Schema(fault) => tell_schema_fault(alloc, fault, told),
        ImportFault::Layout(fault) => Ok(told.fault(alloc, fault.to_string(alloc)?.as_str())?),
    }
}

/// `items` and `ways`, with a tree as input: what is asked of it, or why it isn't taken in.
pub(crate) fn tell_items(
    alloc: Global,
    text: &[u8],
    read: Read,
    told: &mut Transcript,
) -> io::Result<()> {
    let (desk, mut pass) = open_desk();
    let came = match read_tree(alloc, text, &mut pass) {
        Ok((schema, array)) => tell_imported(alloc, schema, array, read, told, &mut pass),
        Err(fault) => tell_text_fault(alloc, fault, told),
    };
    desk.close(pass);
    came
}
