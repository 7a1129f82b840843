//! The words of a command line.
use crate::subject::text_of;
use crate::transcript::Transcript;
use run_model::{WordsError, read_words};
use std::alloc::Global;
use std::io;

/// `words WORD..`: what the words ask for, as it is printed, or the fault, with `audit` behind it where that is asked for.
pub(crate) fn tell_words(
    alloc: Global,
    words: &[Vec<u8>],
    told: &mut Transcript,
) -> io::Result<()> {
    let mut texts = Vec::new(alloc);
    for word in words {
        texts.push(String::from_str(alloc, text_of(word.as_slice()))?)?;
    }
    let fault = match read_words(alloc, texts.as_slice()) {
        Ok(words) => return Ok(told.answer(alloc, format!(in alloc; "{words:?}")?.as_str())?),
        Err(fault) => fault,
    };
    let audit = matches!(fault, WordsError::Words { audit: true, .. });
    let behind = if audit { " (audit)" } else { "" };
    Ok(told.fault(alloc, format!(in alloc; "{fault}{behind}")?.as_str())?)
}
