//! The columns of a body in the making.
ghost use Rattle.std.specs.Prelude.{◌≡◌, ◌<◌, ℕ, [], get_or, length, map, IfOk, OnOk};
ghost use Rattle.std.specs.List.{list_all};
ghost use Rattle.col_build.specs.Encoding.{HasForm, most_values};
ghost use Rattle.col_build.specs.Holding.{Holds, HoldsSome};
ghost use Rattle.col_build.specs.declared.builder.Builder.{Builder};
ghost use Rattle.data_types.specs.ColumnView.{column_of};
ghost use Rattle.data_types.specs.promise.FieldText.{form_of};
ghost use Rattle.data_types.specs.Kinds.{KindOk};
ghost use Rattle.data_types.specs.promise.Table.{Flat};
ghost use Rattle.csv_read.specs.ColumnForms.{AreBegun, AreForms, AreReady, is_text_form};
ghost use Rattle.csv_read.specs.Emptied.{AreEmptied};
ghost use Rattle.field_codec.specs.TextColumns.{AreAllowed, AreProper, IsAllowed, IsFlatOf};

use crate::body::BodyFault;
use crate::chunk::export_rows;
use crate::field_push::push_row;
use col_build::{Builder, SpareBuffers};
use csv::ByteRecord;
use data_types::{ColKind, ColumnType, DataType, RowFault, clone_kind};
use field_codec::{FieldForm, flat_form};
use raw_array::RawArray;
use std::alloc::Global;
use unit_pass::{Name, NoMemory, Pass};

/// How the fields of each column are read, what each holds, and how many rows there are.
#[derive(Drop)]
pub(crate) struct BodyColumns {
    pub(crate) forms: Vec<FieldForm>,
    pub(crate) builders: Vec<Builder>,
    pub(crate) room: Vec<u8>,
    // How many items and bytes each builder had last.
    pub(crate) used: Vec<(usize, usize)>,
    pub(crate) rows: u64,
    // Whether all columns are of texts.
    pub(crate) only_text: bool,
    // The text that stands for a null.
    pub(crate) mark: Name,
    ghost each_used: { length used.items ≡ length forms.items },
    ghost all_text: { only_text ≡ list_all is_text_form forms.items },
}

/// The type of a column of plain values.
fn flat_kind(column: &ColumnType) -> &DataType
    requires proper { IsFlatOf KindOk (column_of column.now) }
    requires allowed { IsFlatOf IsAllowed (column_of column.now) }
    ensures is { (column_of column.now).kind ≡ Flat result.now }
    ensures kind { KindOk result.now }
    ensures flat { HasForm (form_of result.now) }
{
    match &column.kind {
        ColKind::Flat(kind) => kind,
        _ => unreachable!(),
    }
}

/// Whether a column of this form is one of texts.
fn is_text_form(form: &FieldForm) -> bool
    ensures { result ≡ is_text_form form.now }
{
    matches!(form, FieldForm::Text)
}

/// Whether all columns are read as texts.
fn only_text(forms: &[FieldForm]) -> bool
    ensures { result ≡ list_all is_text_form forms.now }
{
    forms.iter().all(|form| is_text_form(form))
}

/// A column of this type without values, with room for this many items and bytes.
fn fresh(alloc: Global, kind: &DataType, used: (usize, usize)) -> Result<Builder, NoMemory>
    requires kind { KindOk kind.now }
    requires flat { HasForm (form_of kind.now) }
    ensures { IfOk result (λ builder. Holds builder kind.now []) }
{
    Builder::with_room(alloc, clone_kind(alloc, kind)?, used.0, used.1)
}

/// A builder for each column, without values.
fn builders_of(
    alloc: Global,
    columns: &[ColumnType],
    used: &[(usize, usize)],
) -> Result<Vec<Builder>, NoMemory>
    requires proper { AreProper (map column_of columns.now) }
    requires allowed { AreAllowed (map column_of columns.now) }
    requires used { length used.now ≡ length columns.now }
    ensures { IfOk result (λ builders. AreBegun builders.items (map column_of columns.now)) }
{
    let mut builders = Vec::with_capacity(alloc, columns.len())?;
    for column in columns {
        let kind = flat_kind(column);
        builders.push(fresh(alloc, kind, used[builders.len()])?)?;
    }
    Ok(builders)
}

/// Begins each builder anew, with the room that it needed last.
fn begin_all(
    alloc: Global,
    used: &[(usize, usize)],
    builders: &mut [Builder],
) -> Result<(), NoMemory>
    requires used { length used.now ≡ length builders.old }
    requires held { (j : ℕ) (b : Builder) → j < length builders.old → HoldsSome (get_or builders.old j b) }
    ensures { OnOk result (AreEmptied builders.old builders.new) }
{
    for j in 0..builders.len() {
        let (items, bytes) = used[j];
        builders[j].begin_anew(alloc, items, bytes)?;
    }
    Ok(())
}

/// Notes how many items and bytes builders have.
fn note_used(used: &mut [(usize, usize)], builders: &[Builder])
    requires count { length used.old ≡ length builders.now }
    requires held { (j : ℕ) (b : Builder) → j < length builders.now → HoldsSome (get_or builders.now j b) }
    ensures count { length used.new ≡ length used.old }
{
    for j in 0..builders.len() {
        let (items, bytes) = builders[j].used();
        used[j] = (items, bytes.saturating_add(64));
    }
}

impl BodyColumns {
    ghost use Rattle.std.specs.Prelude.{◌≤◌, ◌+◌, ◌*◌, ◌^◌, List, pos, true, IfErr, OnErr, OnOk};
    ghost use Rattle.csv.specs.Records.{fields_of};
    ghost use Rattle.data_types.specs.promise.Table.{Column, Row};
    ghost use Rattle.raw_array.specs.promise.Members.{Cost};
    ghost use Rattle.unit_pass.specs.promise.Tally.{risen};
    ghost use Rattle.csv_read.specs.Body.{HoldRows};
    ghost use Rattle.csv_read.specs.Chunks.{chunk_blocks, chunk_of};
    ghost use Rattle.csv_read.specs.Emptied.{AreSpent};
    ghost use Rattle.csv_read.specs.BodyRows.{AddsRow, HasRoomFor, HasRows, RefusesRow};
    ghost use Rattle.csv_read.specs.Texts.{AreTexts};

    /// Columns without rows, under a mark for null.
    pub(crate) fn new(
        alloc: Global,
        columns: &[ColumnType],
        mark: &[u8],
    ) -> Result<BodyColumns, NoMemory>
        requires proper { AreProper (map column_of columns.now) }
        requires allowed { AreAllowed (map column_of columns.now) }
        ensures rows { IfOk result (λ made. HasRows made (map column_of columns.now) []) }
        ensures mark { IfOk result (λ made. made.mark ≡ mark.now) }
    {
        let mut made = BodyColumns::empty(alloc, columns, mark)?;
        made.begin(alloc, columns)?;
        Ok(made)
    }

    /// How the columns are read, under a mark for null, and no builders yet.
    pub(crate) fn empty(
        alloc: Global,
        columns: &[ColumnType],
        mark: &[u8],
    ) -> Result<BodyColumns, NoMemory>
        requires proper { AreProper (map column_of columns.now) }
        requires allowed { AreAllowed (map column_of columns.now) }
        ensures forms { IfOk result (λ made. AreForms made.forms.items (map column_of columns.now)) }
        ensures builders { IfOk result (λ made. made.builders.items ≡ []) }
        ensures mark { IfOk result (λ made. made.mark ≡ mark.now) }
    {
        let mark = Name::from_slice(alloc, mark)?;
        let mut forms = Vec::with_capacity(alloc, columns.len())?;
        let mut used = Vec::with_capacity(alloc, columns.len())?;
        for column in columns {
            let kind = flat_kind(column);
            forms.push(flat_form(kind))?;
            used.push((11, 64))?;
        }
        Ok(BodyColumns {
            only_text: only_text(forms.as_slice()),
            forms,
            builders: Vec::new(alloc),
            room: Vec::new(alloc),
            used,
            rows: 0,
            mark,
        })
    }

    /// Begins anew: a builder for each column, without rows.
    pub(crate) fn begin(&mut self, alloc: Global, columns: &[ColumnType]) -> Result<(), NoMemory>
        requires proper { AreProper (map column_of columns.now) }
        requires allowed { AreAllowed (map column_of columns.now) }
        requires forms { AreForms self.old.forms.items (map column_of columns.now) }
        requires builders { AreReady self.old.builders.items (map column_of columns.now) }
        ensures rows { OnOk result (HasRows self.new (map column_of columns.now) []) }
        ensures forms { self.new.forms ≡ self.old.forms }
        ensures mark { self.new.mark ≡ self.old.mark }
    {
        self.rows = 0;
        if self.builders.is_empty() {
            self.builders = builders_of(alloc, columns, self.used.as_slice())?;
            return Ok(());
        }
        begin_all(alloc, self.used.as_slice(), self.builders.as_mut_slice())?;
        Ok(())
    }

    /// Notes how much room the rows took, where they are enough to be worth it; the next ones will have as much.
    pub(crate) fn note(&mut self)
        requires held { (columns : List Column) × (rows : List Row) × HasRows self.old columns rows }
        ensures builders { self.new.builders.items ≡ self.old.builders.items }
        ensures rows { self.new.rows ≡ self.old.rows }
        ensures forms { self.new.forms ≡ self.old.forms }
        ensures mark { self.new.mark ≡ self.old.mark }
    {
        if self.rows > 11 {
            note_used(self.used.as_mut_slice(), self.builders.as_slice());
        }
    }

    /// The chunk of the rows, as `export_rows` makes it of the builders.
    pub(crate) fn export(
        &mut self,
        alloc: Global,
        rows: i64,
        spares: &mut SpareBuffers,
        pass: &mut Pass,
    ) -> Result<RawArray, NoMemory>
        requires held { (columns : List Column) × (values : List Row) × HoldRows self.old.builders.items columns values × (rows ≡ pos (length values))
            × (length values ≤ most_values) }
        requires few { length self.old.builders.items < 2 ^ 31 }
        requires units { 1 + 4 * length self.old.builders.items ≤ pass.old.units }
        ensures chunk { IfOk result (λ chunk. (columns : List Column) (values : List Row) → HoldRows self.old.builders.items columns values
            → rows ≡ pos (length values) → chunk ≡ chunk_of columns values) }
        ensures emptied { OnOk result (AreEmptied self.old.builders.items self.new.builders.items) }
        ensures spent { OnErr result (AreSpent self.old.builders.items self.new.builders.items) }
        ensures units { IfOk result (λ chunk. pass.new.units + Cost chunk ≡ pass.old.units) }
        ensures units_back { OnErr result (pass.new.units ≡ pass.old.units) }
        ensures cost { IfOk result (λ chunk. Cost chunk ≤ 1 + 4 * length self.old.builders.items) }
        ensures blocks { OnOk result ((columns : List Column) (values : List Row) → HoldRows self.old.builders.items columns values
            → pass.new.blocks ≡ risen pass.old.blocks (chunk_blocks columns values)) }
        ensures nodes { OnOk result (pass.new.nodes ≡ risen pass.old.nodes (1 + length self.old.builders.items)) }
        ensures forms { self.new.forms ≡ self.old.forms }
        ensures mark { self.new.mark ≡ self.old.mark }
    {
        let made = export_rows(alloc, self.builders.as_mut_slice(), rows, spares, pass)?;
        Ok(made)
    }

    /// Adds the row that the record of this number spells. Whether all its fields are UTF-8 may be known.
    pub(crate) fn push(
        &mut self,
        row: &ByteRecord,
        texts: bool,
        number: u64,
    ) -> Result<(), BodyFault>
        requires few { self.old.rows < most_values }
        requires fits { HasRoomFor self.old.forms.items self.old.builders.items (fields_of row.now) }
        requires texts { texts ≡ true → AreTexts (fields_of row.now) }
        ensures added { OnOk result (AddsRow number (fields_of row.now) self.old self.new) }
        ensures fault { IfErr result (λ fault. RefusesRow fault number (fields_of row.now) self.old) }
        ensures forms { self.new.forms ≡ self.old.forms }
        ensures mark { self.new.mark ≡ self.old.mark }
    {
        if row.len() != self.forms.len() {
            return Err(BodyFault::Row(RowFault::Ragged {
                row: number,
                found: row.len() as u64,
            }));
        }
        push_row(
            self.forms.as_slice(),
            row,
            self.mark.as_slice(),
            texts,
            self.only_text,
            number,
            &mut self.room,
            self.builders.as_mut_slice(),
        )?;
        self.rows += 1;
        Ok(())
    }
}
