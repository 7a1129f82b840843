//! What one line says: a node's own members and how many parts it has, or a buffer.
ghost use Rattle.std.specs.Prelude.{◌≡◌, ◌∷◌, [], Some, None, IfOk, IfSome, IfNone, option_map, Option};
ghost use Rattle.tree_text.specs.promise.Standing.{fields, read_schema_line, read_array_line, read_buffer_line, read_schema_fields, read_array_fields};
ghost use Rattle.tree_text.specs.LineView.{IsOther, schema_told, array_told, buffer_told, six};

use crate::hexadecimal::lower_hex;
use crate::lines::cut;
use crate::numbers::{count, number};
use crate::tokens::{present, token};
use std::alloc::Global;
use unit_pass::NoMemory;

/// The deepest level on which a node may be. The root has level 1.
pub const DEEPEST_LEVEL: u32 = 100;

/// The most buffers or children of a node.
const MOST_PARTS: u64 = 1 << 20;

/// A schema node's own members, and how many parts it has.
#[derive(Drop)]
pub struct SchemaNodeLine {
    pub format: Vec<u8>,
    pub name: Option<Vec<u8>>,
    pub metadata: Option<Vec<u8>>,
    pub flags: i64,
    pub children: u64,
    pub dictionaries: u64,
}

/// What a schema node's line says.
#[derive(Drop)]
pub enum SchemaLine {
    Released,
    Live(SchemaNodeLine),
}

/// An array node's own numbers, and how many parts it has.
#[derive(Clone, Copy)]
pub struct ArrayNodeLine {
    pub length: i64,
    pub null_count: i64,
    pub offset: i64,
    pub buffers: u64,
    pub children: u64,
    pub dictionaries: u64,
}

/// What an array node's line says.
#[derive(Clone, Copy)]
pub enum ArrayLine {
    Released,
    Live(ArrayNodeLine),
}

/// What a buffer's line says.
#[derive(Drop)]
pub enum BufferLine {
    Absent,
    Present(Vec<u8>),
}

/// The fields of a node's line behind its first.
#[derive(Clone, Copy)]
struct Fields<'a> {
    first: &'a [u8],
    second: &'a [u8],
    third: &'a [u8],
    fourth: &'a [u8],
    fifth: &'a [u8],
    sixth: &'a [u8],
}

/// The six fields behind a letter.
#[tactic(auto, using(crate::proofs::Cuts::some_parts))]
fn six_fields(letter: u8, line: &[u8]) -> Option<Fields<'_>>
    ensures some { IfSome result (λ f. fields line.now ≡ (letter ∷ []) ∷ six f.first.now f.second.now f.third.now f.fourth.now f.fifth.now f.sixth.now) }
    ensures none { IfNone result (IsOther letter (fields line.now)) }
{
    let (front, rest) = cut(line, b' ')?;
    if front != [letter].as_slice() {
        return None;
    }
    let (first, rest) = cut(rest, b' ')?;
    let (second, rest) = cut(rest, b' ')?;
    let (third, rest) = cut(rest, b' ')?;
    let (fourth, rest) = cut(rest, b' ')?;
    let (fifth, sixth) = cut(rest, b' ')?;
    match cut(sixth, b' ') {
        Some(_) => None,
        None => Some(Fields {
            first,
            second,
            third,
            fourth,
            fifth,
            sixth,
        }),
    }
}

/// A line of the schema tree, or `None` where it is none.
pub(crate) fn schema_line(alloc: Global, line: &[u8]) -> Result<Option<SchemaLine>, NoMemory>
    ensures { IfOk result (λ told. option_map schema_told told ≡ read_schema_line line.now) }
{
    if line == b"S !".as_slice() {
        return Ok(Some(SchemaLine::Released));
    }
    match six_fields(b'S', line) {
        Some(fields) => live_schema(alloc, &fields),
        None => Ok(None),
    }
}

/// A live node's line by its fields.
fn live_schema(alloc: Global, fields: &Fields<'_>) -> Result<Option<SchemaLine>, NoMemory>
    ensures { IfOk result (λ told. option_map schema_told told
        ≡ read_schema_fields ((83 ∷ []) ∷ six fields.now.first.now fields.now.second.now fields.now.third.now fields.now.fourth.now fields.now.fifth.now
        fields.now.sixth.now)) }
{
    let Some(flags) = number(fields.third) else {
        return Ok(None);
    };
    let Some(children) = count(MOST_PARTS, fields.fourth) else {
        return Ok(None);
    };
    let Some(dictionaries) = count(1, fields.fifth) else {
        return Ok(None);
    };
    let Some(format) = present(alloc, fields.first)? else {
        return Ok(None);
    };
    let Some(name) = token(alloc, fields.second)? else {
        return Ok(None);
    };
    let Some(metadata) = token(alloc, fields.sixth)? else {
        return Ok(None);
    };
    Ok(Some(SchemaLine::Live(SchemaNodeLine {
        format,
        name,
        metadata,
        flags,
        children,
        dictionaries,
    })))
}

/// A line of the array tree that is no buffer's, or `None` where it is none.
pub(crate) fn array_line(line: &[u8]) -> Option<ArrayLine>
    ensures { option_map array_told result ≡ read_array_line line.now }
{
    if line == b"A !".as_slice() {
        return Some(ArrayLine::Released);
    }
    match six_fields(b'A', line) {
        Some(fields) => live_array(&fields),
        None => None,
    }
}

/// A live node's line by its fields.
fn live_array(fields: &Fields<'_>) -> Option<ArrayLine>
    ensures { option_map array_told result ≡ read_array_fields ((65 ∷ [])
        ∷ six fields.now.first.now fields.now.second.now fields.now.third.now fields.now.fourth.now fields.now.fifth.now fields.now.sixth.now) }
{
    let length = number(fields.first)?;
    let null_count = number(fields.second)?;
    let offset = number(fields.third)?;
    let buffers = count(MOST_PARTS, fields.fourth)?;
    let children = count(MOST_PARTS, fields.fifth)?;
    let dictionaries = count(1, fields.sixth)?;
    Some(ArrayLine::Live(ArrayNodeLine {
        length,
        null_count,
        offset,
        buffers,
        children,
        dictionaries,
    }))
}

/// A buffer's line, or `None` where it is none.
pub(crate) fn buffer_line(alloc: Global, line: &[u8]) -> Result<Option<BufferLine>, NoMemory>
    ensures { IfOk result (λ told. option_map buffer_told told ≡ read_buffer_line line.now) }
{
    if line == b"B ~".as_slice() {
        return Ok(Some(BufferLine::Absent));
    }
    match line {
        [b'B', b' ', b'=', digits @ ..] => match lower_hex(alloc, digits)? {
            Some(bytes) => Ok(Some(BufferLine::Present(bytes))),
            None => Ok(None),
        },
        _ => Ok(None),
    }
}
