//! Metadata of schemas: their pairs, and the bytes of these.
use crate::formats::hex_of;
use crate::subject::no_memory;
use crate::transcript::Transcript;
use data_types::decode_hex;
use schema_meta::{MetaFault, Pair, check_meta, read_meta, write_meta};
use std::alloc::{AllocError, Global};
use std::io;

/// The bytes that the digits of all lines are.
pub(crate) fn bytes_of_lines(alloc: Global, input: &[u8]) -> Result<Option<Vec<u8>>, AllocError> {
    let mut digits = Vec::new(alloc);
    for byte in input {
        if *byte != b'\n' {
            digits.push(*byte)?;
        }
    }
    let mut bytes = Vec::new(alloc);
    bytes.resize(digits.len() / 2, 0)?;
    if decode_hex(digits.as_slice(), bytes.as_mut_slice()) {
        Ok(Some(bytes))
    } else {
        Ok(None)
    }
}

/// Tells a fault of reading, and that of checking where it is another one.
fn tell_faults(
    alloc: Global,
    fault: MetaFault,
    checked: Result<(), MetaFault>,
    told: &mut Transcript,
) -> io::Result<()> {
    told.fault(alloc, fault.to_string(alloc)?.as_str())?;
    if checked != Err(fault) {
        told.fault(alloc, format!(in alloc; "checked: {checked:?}")?.as_str())?;
    }
    Ok(())
}

/// Tells the pairs, and that they are written as these bytes, or as which others.
fn tell_pairs(
    alloc: Global,
    bytes: &[u8],
    pairs: &[Pair],
    told: &mut Transcript,
) -> io::Result<()> {
    let mut text = Vec::new(alloc);
    for pair in pairs {
        text.extend_from_slice(pair.key.as_slice())?;
        text.push(b'=')?;
        text.extend_from_slice(pair.value.as_slice())?;
        text.push(b'\n')?;
    }
    told.text(alloc, text.as_slice())?;
    let Ok(written) = write_meta(alloc, pairs) else {
        return Err(no_memory());
    };
    let again = if written.as_slice() == bytes {
        String::from_str(alloc, "the same bytes")?
    } else {
        hex_of(alloc, written.as_slice())?
    };
    let line = format!(in alloc; "{} pairs, written as {again}", pairs.len())?;
    Ok(told.answer(alloc, line.as_str())?)
}

/// `meta`, with the digits of the bytes as input: the pairs, or the fault with its place.
pub(crate) fn tell_metadata(alloc: Global, input: &[u8], told: &mut Transcript) -> io::Result<()> {
    let Some(bytes) = bytes_of_lines(alloc, input)? else {
        return Ok(told.fault(alloc, "no pairs of digits")?);
    };
    let bytes = bytes.as_slice();
    let checked = check_meta(bytes);
    match read_meta(alloc, bytes) {
        Err(fault) => tell_faults(alloc, fault, checked, told),
        Ok(pairs) => {
            if checked.is_err() {
                told.fault(alloc, format!(in alloc; "checked: {checked:?}")?.as_str())?;
            }
            tell_pairs(alloc, bytes, pairs.as_slice(), told)
        }
    }
}
