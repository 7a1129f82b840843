//! A writer of lines into memory, field by field.
ghost use Rattle.std.specs.Prelude.{◌≡◌, ◌<◌, ◌-◌, ◌^◌, ◌++◌, ◌∷◌, [], ℕ, List, length, IfOk, OnOk};
ghost use Rattle.csv.specs.Writing.{default_writer, row_text};
ghost use Rattle.csv_write.specs.Lines.{HasFields, HasLines};

use csv::{Writer, WriterBuilder};
use std::alloc::Global;
use unit_pass::NoMemory;

/// A writer of no lines.
pub(crate) fn new_writer(alloc: Global) -> Writer<Vec<u8>>
    ensures { HasLines result [] }
{
    WriterBuilder::new().from_writer(Vec::new(alloc))
}

/// The lines that a writer has written.
pub(crate) fn finish_lines(writer: Writer<Vec<u8>>) -> Result<Vec<u8>, NoMemory>
    ensures { IfOk result (λ v. (text : List ℕ) → HasLines writer text → v.items ≡ text) }
{
    match writer.into_inner() {
        Ok(text) => Ok(text),
        Err(_) => Err(NoMemory),
    }
}

/// Writes one field of a line.
pub(crate) fn write_text(writer: &mut Writer<Vec<u8>>, field: &[u8]) -> Result<(), NoMemory>
    ensures { OnOk result ((text : List ℕ) (fields : List (List ℕ)) → length fields < 2 ^ 64 - 1
        → HasFields writer.old text fields → HasFields writer.new text (fields ++ field.now ∷ [])) }
{
    match writer.write_field(field) {
        Ok(()) => Ok(()),
        Err(_) => Err(NoMemory),
    }
}

/// Ends a line.
pub(crate) fn end_line(writer: &mut Writer<Vec<u8>>) -> Result<(), NoMemory>
    ensures { OnOk result ((text : List ℕ) (fields : List (List ℕ)) → HasFields writer.old text fields
        → HasLines writer.new (text ++ row_text default_writer fields)) }
{
    match writer.end_record() {
        Ok(()) => Ok(()),
        Err(_) => Err(NoMemory),
    }
}
