//! What a case calls, by the first word of its `$` line.
use crate::added::{tell_added, tell_times};
use crate::columns::{tell_column_of, tell_made, tell_utf8};
use crate::commands::tell_words;
use crate::formats::{tell_flat, tell_format, tell_hex, tell_storage, tell_type};
use crate::metadata::tell_metadata;
use crate::spellings::{tell_given, tell_line, tell_spelled, tell_spelling};
use crate::stages::{tell_plan, tell_stage, tell_types};
use crate::transcript::Transcript;
use crate::trees::{Read, TreeCase, tell_check, tell_items, tell_places, tell_tree};
use std::alloc::Global;
use std::io;
use std::io::{Error, ErrorKind};
use std::str::from_utf8;

/// Out of memory, as the program's own error.
pub(crate) fn no_memory() -> Error {
    Error::from(ErrorKind::OutOfMemory)
}

/// A word as a text; what isn't UTF-8 is the empty one.
pub(crate) fn text_of(word: &[u8]) -> &str {
    from_utf8(word).unwrap_or("")
}

/// Runs the call that the first word names with the others and the input, and tells what came of it.
pub(crate) fn run_subject(
    alloc: Global,
    words: &[Vec<u8>],
    input: &[u8],
    told: &mut Transcript,
) -> io::Result<()> {
    let Some((name, words)) = words.split_first() else {
        return Ok(told.fault(alloc, "what is called?")?);
    };
    let first = match words.first() {
        Some(word) => word.as_slice(),
        None => &[],
    };
    match text_of(name.as_slice()) {
        "format" => tell_format(alloc, first, told),
        "type" => tell_type(alloc, first, told),
        "flat" => tell_flat(alloc, first, told),
        "storage" => tell_storage(alloc, first, told),
        "hex" => tell_hex(alloc, first, told),
        "meta" => tell_metadata(alloc, input, told),
        "stage" => tell_stage(alloc, text_of(first), told),
        "types" => tell_types(alloc, text_of(first), told),
        "plan" => tell_plan(alloc, text_of(first), words.get(1..).unwrap_or(&[]), told),
        "words" => tell_words(alloc, words, told),
        "column" => tell_column_of(alloc, first, words.get(1..).unwrap_or(&[]), told),
        "added" => tell_added(alloc, words, told),
        "times" => tell_times(alloc, words, told),
        "utf8" => tell_utf8(alloc, first, told),
        "made" => tell_made(alloc, first, told),
        "tree" => tell_tree(alloc, input, TreeCase::Report, told),
        "verdict" => tell_tree(alloc, input, TreeCase::Verdict, told),
        "places" => tell_places(alloc, input, told),
        "chunk" => tell_tree(alloc, input, TreeCase::Chunk, told),
        "check" => tell_check(alloc, input, told),
        "items" => tell_items(alloc, input, Read::Items, told),
        "ways" => tell_items(alloc, input, Read::Ways, told),
        "spells" => tell_spelled(alloc, text_of(first), told),
        "spelling" => tell_spelling(alloc, first, told),
        "line" => tell_line(alloc, text_of(first), told),
        "given" => tell_given(alloc, words, input, told),
        _ => Ok(told.fault(alloc, "what is called?")?),
    }
}
