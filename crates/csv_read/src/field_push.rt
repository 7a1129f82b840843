//! The fields of a record, added to their columns.
ghost use Rattle.std.specs.Prelude.{◌≡◌, ◌≢◌, ◌<◌, ◌+◌, ◌/◌, ◌^◌, ℕ, length, true, false, option_map, is_err, IfErr, OnOk, None};
ghost use Rattle.std.specs.List.{list_all};
ghost use Rattle.std.specs.Str.{bytes_eq, is_utf8};
ghost use Rattle.csv.specs.Records.{fields_of};
ghost use Rattle.col_build.specs.Holding.{HoldsFloats, HoldsWholes};
ghost use Rattle.data_types.specs.promise.FieldText.{Decimals, FloatBits, HexBytes, SizedHex, Text, Truths, Wholes, read_form};
ghost use Rattle.data_types.specs.FieldText.{IsFlatForm};
ghost use Rattle.data_types.specs.promise.Value.{Bytes};
ghost use Rattle.data_types.specs.declared.row_fault.RowFault.TheVariants as row;
ghost use Rattle.csv_read.specs.BodyRows.{AddsField, AddsFields, AddsSome, HasRoom, HasRoomFor, IsOfForm, RefusesFields, SpellsNone, TakesSome};
ghost use Rattle.csv_read.specs.ColumnForms.{is_text_form};
ghost use Rattle.csv_read.specs.Texts.{AreTexts};
ghost use Rattle.csv_read.specs.declared.body.BodyFault.TheVariants as fault;
ghost use Rattle.csv_read.specs.declared.field_push.PushOutcome.TheVariants.{Added, Refused};
ghost use Rattle.field_codec.specs.FieldForms.{IsProper, form_in};
ghost use Rattle.field_codec.specs.declared.form.FieldForm.TheVariants as field_form;

use crate::body::BodyFault;
use crate::row::field;
use col_build::{Builder, is_text};
use csv::ByteRecord;
use data_types::RowFault;
use field_codec::{
    FieldForm, read_bits, read_bytes, read_decimal, read_eight_bytes, read_sixteen, read_truth,
    read_whole,
};
use unit_pass::NoMemory;

/// What became of a field.
#[derive(Clone, Copy)]
enum PushOutcome {
    Added,
    // It spells no value of its column.
    Refused,
    NoMemory,
}

/// The answer for an add of a value that the column takes.
#[inline(always)]
fn outcome(added: Result<(), NoMemory>) -> PushOutcome
    ensures added { result ≡ Added → is_err added ≡ false }
    ensures taken { result ≢ Refused }
{
    match added {
        Ok(()) => PushOutcome::Added,
        Err(NoMemory) => PushOutcome::NoMemory,
    }
}

/// Whether a field is UTF-8, which is tested where it isn't known.
#[inline(always)]
fn is_utf8(text: &[u8], known: bool) -> bool
    requires { known ≡ true → is_utf8 text.now ≡ true }
    ensures { result ≡ is_utf8 text.now }
{
    known || is_text(text)
}

/// Adds a text where it is UTF-8.
#[inline(always)]
fn push_text(text: &[u8], known: bool, builder: &mut Builder) -> PushOutcome
    requires known { known ≡ true → is_utf8 text.now ≡ true }
    requires takes { TakesSome builder.old (read_form Text text.now) }
    ensures added { result ≡ Added → AddsSome (read_form Text text.now) builder.old builder.new }
    ensures none { result ≡ Refused → read_form Text text.now ≡ None }
{
    if !is_utf8(text, known) {
        return PushOutcome::Refused;
    }
    outcome(builder.add_bytes(text))
}

/// Adds a whole number of this many bits where a field spells one. They are a constant where it is inlined.
#[inline(always)]
fn push_whole(bits: u8, signed: bool, text: &[u8], builder: &mut Builder) -> PushOutcome
    requires flat { IsFlatForm (Wholes bits signed) }
    requires width { HoldsWholes (bits / 8) builder.old }
    requires takes { TakesSome builder.old (read_form (Wholes bits signed) text.now) }
    ensures added { result ≡ Added → AddsSome (read_form (Wholes bits signed) text.now) builder.old builder.new }
    ensures none { result ≡ Refused → read_form (Wholes bits signed) text.now ≡ None }
{
    match read_whole(bits, signed, text) {
        Some(number) => outcome(builder.add_whole(usize::from(bits / 8), number)),
        None => PushOutcome::Refused,
    }
}

/// The same of the widths and signs that are rarer.
#[inline(never)]
fn push_other_whole(bits: u8, signed: bool, text: &[u8], builder: &mut Builder) -> PushOutcome
    requires flat { IsFlatForm (Wholes bits signed) }
    requires width { HoldsWholes (bits / 8) builder.old }
    requires takes { TakesSome builder.old (read_form (Wholes bits signed) text.now) }
    ensures added { result ≡ Added → AddsSome (read_form (Wholes bits signed) text.now) builder.old builder.new }
    ensures none { result ≡ Refused → read_form (Wholes bits signed) text.now ≡ None }
{
    if bits == 64 {
        return push_whole(64, signed, text, builder);
    }
    if bits == 32 {
        return push_whole(32, signed, text, builder);
    }
    if bits == 16 {
        return push_whole(16, signed, text, builder);
    }
    push_whole(8, signed, text, builder)
}

/// Adds a whole number where a field spells one.
#[inline(always)]
fn push_number(bits: u8, signed: bool, text: &[u8], builder: &mut Builder) -> PushOutcome
    requires flat { IsFlatForm (Wholes bits signed) }
    requires width { HoldsWholes (bits / 8) builder.old }
    requires takes { TakesSome builder.old (read_form (Wholes bits signed) text.now) }
    ensures added { result ≡ Added → AddsSome (read_form (Wholes bits signed) text.now) builder.old builder.new }
    ensures none { result ≡ Refused → read_form (Wholes bits signed) text.now ≡ None }
{
    if signed {
        if bits == 64 {
            return push_whole(64, true, text, builder);
        }
        if bits == 32 {
            return push_whole(32, true, text, builder);
        }
    }
    push_other_whole(bits, signed, text, builder)
}

/// Adds a decimal where a field spells one.
#[inline(always)]
fn push_decimal(precision: u8, places: u32, text: &[u8], builder: &mut Builder) -> PushOutcome
    requires flat { IsFlatForm (Decimals precision places) }
    requires width { HoldsWholes 16 builder.old }
    requires takes { TakesSome builder.old (read_form (Decimals precision places) text.now) }
    ensures added { result ≡ Added → AddsSome (read_form (Decimals precision places) text.now) builder.old builder.new }
    ensures none { result ≡ Refused → read_form (Decimals precision places) text.now ≡ None }
{
    match read_decimal(precision, places, text) {
        Some(number) => outcome(builder.add_whole(16, number)),
        None => PushOutcome::Refused,
    }
}

/// Adds a truth value where a field spells one.
#[inline(always)]
fn push_truth(text: &[u8], builder: &mut Builder) -> PushOutcome
    requires takes { TakesSome builder.old (read_form Truths text.now) }
    ensures added { result ≡ Added → AddsSome (read_form Truths text.now) builder.old builder.new }
    ensures none { result ≡ Refused → read_form Truths text.now ≡ None }
{
    match read_truth(text) {
        Some(truth) => outcome(builder.add_truth(truth)),
        None => PushOutcome::Refused,
    }
}

/// Adds this many bits of a float where a field spells them. Their number is a constant where it is inlined.
#[inline(always)]
fn push_bits(bits: u8, text: &[u8], builder: &mut Builder) -> PushOutcome
    requires flat { IsFlatForm (FloatBits bits) }
    requires width { HoldsFloats (bits / 8) builder.old }
    requires takes { TakesSome builder.old (read_form (FloatBits bits) text.now) }
    ensures added { result ≡ Added → AddsSome (read_form (FloatBits bits) text.now) builder.old builder.new }
    ensures none { result ≡ Refused → read_form (FloatBits bits) text.now ≡ None }
{
    match read_bits(bits, text) {
        Some(number) => outcome(builder.add_bits(usize::from(bits / 8), number)),
        None => PushOutcome::Refused,
    }
}

/// Adds the bits of a float where a field spells them.
#[inline(always)]
fn push_float(bits: u8, text: &[u8], builder: &mut Builder) -> PushOutcome
    requires flat { IsFlatForm (FloatBits bits) }
    requires width { HoldsFloats (bits / 8) builder.old }
    requires takes { TakesSome builder.old (read_form (FloatBits bits) text.now) }
    ensures added { result ≡ Added → AddsSome (read_form (FloatBits bits) text.now) builder.old builder.new }
    ensures none { result ≡ Refused → read_form (FloatBits bits) text.now ≡ None }
{
    if bits == 64 {
        return push_bits(64, text, builder);
    }
    if bits == 32 {
        return push_bits(32, text, builder);
    }
    push_bits(16, text, builder)
}

/// Adds bytes where there are some.
#[inline(always)]
fn push_found(found: Option<&[u8]>, builder: &mut Builder) -> PushOutcome
    requires { TakesSome builder.old (option_map Bytes (option_map (λ b. b.now) found)) }
    ensures added { result ≡ Added → AddsSome (option_map Bytes (option_map (λ b. b.now) found.entry)) builder.old builder.new }
    ensures none { result ≡ Refused → option_map Bytes (option_map (λ b. b.now) found.entry) ≡ None }
{
    match found {
        Some(bytes) => outcome(builder.add_bytes(bytes)),
        None => PushOutcome::Refused,
    }
}

/// Adds the bytes that a field of sixteen digits spells, by a copy of a constant size.
#[inline(never)]
fn push_eight(text: &[u8], builder: &mut Builder) -> PushOutcome
    requires takes { TakesSome builder.old (read_form HexBytes text.now) }
    requires digits { length text.now ≡ 16 }
    ensures added { result ≡ Added → AddsSome (read_form HexBytes text.now) builder.old builder.new }
    ensures none { result ≡ Refused → read_form HexBytes text.now ≡ None }
{
    match read_eight_bytes(text) {
        Some(eight) => outcome(builder.add_bytes(&eight)),
        None => PushOutcome::Refused,
    }
}

/// Adds the bytes that a field of thirty-two digits spells, by a copy of a constant size.
#[inline(never)]
fn push_sixteen(text: &[u8], builder: &mut Builder) -> PushOutcome
    requires takes { TakesSome builder.old (read_form HexBytes text.now) }
    requires digits { length text.now ≡ 32 }
    ensures added { result ≡ Added → AddsSome (read_form HexBytes text.now) builder.old builder.new }
    ensures none { result ≡ Refused → read_form HexBytes text.now ≡ None }
{
    match read_sixteen(text) {
        Some(sixteen) => outcome(builder.add_bytes(&sixteen)),
        None => PushOutcome::Refused,
    }
}

/// Adds the bytes that a field of any length spells.
#[inline(never)]
fn push_any_bytes(text: &[u8], room: &mut Vec<u8>, builder: &mut Builder) -> PushOutcome
    requires takes { TakesSome builder.old (read_form HexBytes text.now) }
    ensures added { result ≡ Added → AddsSome (read_form HexBytes text.now) builder.old builder.new }
    ensures none { result ≡ Refused → read_form HexBytes text.now ≡ None }
{
    match read_bytes(text, room) {
        Ok(found) => push_found(found, builder),
        Err(NoMemory) => PushOutcome::NoMemory,
    }
}

/// Adds the bytes that a field spells. The common lengths are apart, so that each copy has a size of its own.
#[inline(always)]
fn push_bytes(text: &[u8], room: &mut Vec<u8>, builder: &mut Builder) -> PushOutcome
    requires takes { TakesSome builder.old (read_form HexBytes text.now) }
    ensures added { result ≡ Added → AddsSome (read_form HexBytes text.now) builder.old builder.new }
    ensures none { result ≡ Refused → read_form HexBytes text.now ≡ None }
{
    if text.len() == 16 {
        return push_eight(text, builder);
    }
    if text.len() == 32 {
        return push_sixteen(text, builder);
    }
    push_any_bytes(text, room, builder)
}

/// Adds this many bytes that a field spells.
#[inline(always)]
fn push_sized(size: u32, text: &[u8], room: &mut Vec<u8>, builder: &mut Builder) -> PushOutcome
    requires takes { TakesSome builder.old (read_form (SizedHex size) text.now) }
    ensures added { result ≡ Added → AddsSome (read_form (SizedHex size) text.now) builder.old builder.new }
    ensures none { result ≡ Refused → read_form (SizedHex size) text.now ≡ None }
{
    if text.len() as u64 != 2 * u64::from(size) {
        return PushOutcome::Refused;
    }
    push_bytes(text, room, builder)
}

/// Adds the value that a field spells in a form, where it spells one: in each form by the add of its values. Whether the field
/// is UTF-8 may be known.
#[inline(always)]
fn push_spelled(
    form: &FieldForm,
    text: &[u8],
    known: bool,
    room: &mut Vec<u8>,
    builder: &mut Builder,
) -> PushOutcome
    requires proper { IsProper form.now }
    requires known { known ≡ true → is_utf8 text.now ≡ true }
    requires reads { IsOfForm form.now builder.old }
    requires takes { TakesSome builder.old (read_form (form_in form.now) text.now) }
    ensures added { result ≡ Added → AddsSome (read_form (form_in form.now) text.now) builder.old builder.new }
    ensures none { result ≡ Refused → read_form (form_in form.now) text.now ≡ None }
{
    match *form {
        FieldForm::Text => push_text(text, known, builder),
        FieldForm::Wholes { bits, signed } => push_number(bits, signed, text, builder),
        FieldForm::Decimals { precision, places } => {
            push_decimal(precision, places, text, builder)
        }
        FieldForm::Truths => push_truth(text, builder),
        FieldForm::FloatBits { bits } => push_float(bits, text, builder),
        FieldForm::HexBytes => push_bytes(text, room, builder),
        FieldForm::SizedHex { size } => push_sized(size, text, room, builder),
    }
}

/// Whether a field is the mark: most differ from it in length, and an empty one has nothing to compare.
#[inline(always)]
fn is_mark(text: &[u8], mark: &[u8]) -> bool
    ensures { result ≡ bytes_eq text.now mark.now }
{
    text.len() == mark.len() && (text.is_empty() || text == mark)
}

/// Adds the value that a field spells, where it spells one. A field that equals the mark is null.
#[inline(always)]
fn push_field(
    form: &FieldForm,
    text: &[u8],
    mark: &[u8],
    known: bool,
    room: &mut Vec<u8>,
    builder: &mut Builder,
) -> PushOutcome
    requires proper { IsProper form.now }
    requires fits { HasRoom form.now builder.old (length text.now) }
    requires known { known ≡ true → is_utf8 text.now ≡ true }
    ensures added { result ≡ Added → AddsField mark.now form.now text.now builder.old builder.new }
    ensures none { result ≡ Refused → SpellsNone mark.now form.now text.now }
{
    if is_mark(text, mark) {
        return outcome(builder.add_null());
    }
    push_spelled(form, text, known, room, builder)
}

/// Why the field of a record's place is refused.
#[inline(never)]
fn refused(number: u64, place: usize) -> BodyFault
    requires { place + 1 < 2 ^ 32 }
    ensures { result ≡ fault.Row (row.Field number (place + 1)) }
{
    BodyFault::Row(RowFault::Field {
        row: number,
        column: place as u32 + 1,
    })
}

/// Adds the values that the fields of a record spell, each to its column. Whether all are UTF-8 may be known.
fn push_fields(
    forms: &[FieldForm],
    row: &ByteRecord,
    mark: &[u8],
    texts: bool,
    number: u64,
    room: &mut Vec<u8>,
    builders: &mut [Builder],
) -> Result<(), BodyFault>
    requires count { length (fields_of row.now) ≡ length forms.now }
    requires fits { HasRoomFor forms.now builders.old (fields_of row.now) }
    requires texts { texts ≡ true → AreTexts (fields_of row.now) }
    ensures count { length builders.new ≡ length builders.old }
    ensures added { OnOk result (AddsFields mark.now forms.now (fields_of row.now) number (length forms.now) builders.old builders.new) }
    ensures fault { IfErr result (λ fault. RefusesFields fault mark.now forms.now (fields_of row.now) number builders.old) }
{
    for j in 0..forms.len() {
        match push_field(
            &forms[j],
            field(row, j),
            mark,
            texts,
            room,
            &mut builders[j],
        ) {
            PushOutcome::Added => {}
            PushOutcome::Refused => return Err(refused(number, j)),
            PushOutcome::NoMemory => return Err(BodyFault::NoMemory),
        }
    }
    Ok(())
}

/// Adds a field that is UTF-8 to a column of texts. One that equals the mark is null.
#[inline(always)]
fn push_known(text: &[u8], mark: &[u8], builder: &mut Builder) -> Result<(), NoMemory>
    requires text { is_utf8 text.now ≡ true }
    requires fits { HasRoom field_form.Text builder.old (length text.now) }
    ensures { OnOk result (AddsField mark.now field_form.Text text.now builder.old builder.new) }
{
    if is_mark(text, mark) {
        return builder.add_null();
    }
    builder.add_bytes(text)
}

/// Adds the fields of a record that are all UTF-8, each to its column of texts.
fn push_texts(
    forms: &[FieldForm],
    row: &ByteRecord,
    mark: &[u8],
    builders: &mut [Builder],
) -> Result<(), NoMemory>
    requires count { length (fields_of row.now) ≡ length forms.now }
    requires only { list_all is_text_form forms.now ≡ true }
    requires texts { AreTexts (fields_of row.now) }
    requires fits { HasRoomFor forms.now builders.old (fields_of row.now) }
    ensures count { length builders.new ≡ length builders.old }
    ensures added { OnOk result ((number : ℕ) → AddsFields mark.now forms.now (fields_of row.now) number (length forms.now) builders.old builders.new) }
{
    for j in 0..forms.len() {
        push_known(field(row, j), mark, &mut builders[j])?;
    }
    Ok(())
}

/// Adds the values that the fields of a record spell, each to its column. Whether all fields are UTF-8 and whether all columns
/// are of texts may be known: where both are so, no form is looked at.
pub(crate) fn push_row(
    forms: &[FieldForm],
    row: &ByteRecord,
    mark: &[u8],
    texts: bool,
    only_text: bool,
    number: u64,
    room: &mut Vec<u8>,
    builders: &mut [Builder],
) -> Result<(), BodyFault>
    requires count { length (fields_of row.now) ≡ length forms.now }
    requires fits { HasRoomFor forms.now builders.old (fields_of row.now) }
    requires texts { texts ≡ true → AreTexts (fields_of row.now) }
    requires only { only_text ≡ true → list_all is_text_form forms.now ≡ true }
    ensures count { length builders.new ≡ length builders.old }
    ensures added { OnOk result (AddsFields mark.now forms.now (fields_of row.now) number (length forms.now) builders.old builders.new) }
    ensures fault { IfErr result (λ fault. RefusesFields fault mark.now forms.now (fields_of row.now) number builders.old) }
{
    if only_text && texts {
        push_texts(forms, row, mark, builders)?;
        return Ok(());
    }
    push_fields(forms, row, mark, texts, number, room, builders)
}
