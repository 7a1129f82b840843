//! Format strings, the types that they spell, and digits in pairs.
use crate::subject::no_memory;
use crate::transcript::Transcript;
use case_text::spelling_of;
use data_types::{clone_kind, decode_hex, is_column_type, is_flat, storage_of};
use fmt_string::{read_format, write_format};
use std::alloc::{AllocError, Global};
use std::io;

/// The bytes as lower-case hexadecimal digits.
pub(crate) fn hex_of(alloc: Global, bytes: &[u8]) -> Result<String, AllocError> {
    let mut text = String::new(alloc);
    for byte in bytes {
        text.push_str(format!(in alloc; "{:02x}", *byte)?.as_str())?;
    }
    Ok(text)
}

/// `format TEXT`: the one spelling of a copy of the type, or the fault.
pub(crate) fn tell_format(alloc: Global, text: &[u8], told: &mut Transcript) -> io::Result<()> {
    let kind = match read_format(alloc, text) {
        Ok(kind) => kind,
        Err(fault) => return Ok(told.fault(alloc, fault.to_string(alloc)?.as_str())?),
    };
    let Ok(copy) = clone_kind(alloc, &kind) else {
        return Err(no_memory());
    };
    match write_format(alloc, &copy) {
        Ok(text) => Ok(told.answer(alloc, spelling_of(alloc, text.as_slice())?.as_str())?),
        Err(_no_memory) => Err(no_memory()),
    }
}

/// `type TEXT`: the type, as it is printed, or the fault.
pub(crate) fn tell_type(alloc: Global, text: &[u8], told: &mut Transcript) -> io::Result<()> {
    match read_format(alloc, text) {
        Ok(kind) => Ok(told.answer(alloc, format!(in alloc; "{kind:?}")?.as_str())?),
        Err(fault) => Ok(told.fault(alloc, fault.to_string(alloc)?.as_str())?),
    }
}

/// `flat TEXT`: whether fields of text spell the type, and whether a column may be asked to have it.
pub(crate) fn tell_flat(alloc: Global, text: &[u8], told: &mut Transcript) -> io::Result<()> {
    match read_format(alloc, text) {
        Ok(kind) => {
            let flat = if is_flat(&kind) { "flat" } else { "not flat" };
            let column = if is_column_type(&kind) {
                "of a column"
            } else {
                "of no column"
            };
            Ok(told.answer(alloc, format!(in alloc; "{flat}, {column}")?.as_str())?)
        }
        Err(fault) => Ok(told.fault(alloc, fault.to_string(alloc)?.as_str())?),
    }
}

/// `storage TEXT`: how the values of the type are stored.
pub(crate) fn tell_storage(alloc: Global, text: &[u8], told: &mut Transcript) -> io::Result<()> {
    match read_format(alloc, text) {
        Ok(kind) => {
            let storage = storage_of(&kind);
            Ok(told.answer(alloc, format!(in alloc; "{storage:?}")?.as_str())?)
        }
        Err(fault) => Ok(told.fault(alloc, fault.to_string(alloc)?.as_str())?),
    }
}

/// `hex TEXT`: the bytes that the text's pairs of digits are, in lower case again.
pub(crate) fn tell_hex(alloc: Global, text: &[u8], told: &mut Transcript) -> io::Result<()> {
    let mut room = Vec::new(alloc);
    room.resize(text.len() / 2, 0)?;
    if decode_hex(text, room.as_mut_slice()) {
        let mut line = format!(in alloc; "{} bytes", room.len())?;
        if !room.is_empty() {
            line.push(' ')?;
            line.push_str(hex_of(alloc, room.as_slice())?.as_str())?;
        }
        Ok(told.answer(alloc, line.as_str())?)
    } else {
        Ok(told.fault(alloc, "no pairs of digits")?)
    }
}
