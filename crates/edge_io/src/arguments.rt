//! The words that the process was given.
use std::{env, io};

/// The words behind the program's name. An error says that one of them is no text, or that there is no memory.
pub fn program_words(rt: &HostRuntime) -> io::Result<Vec<String>> {
    let mut words = Vec::new(rt.alloc());
    for word in env::args(rt)?.skip(1) {
        words.push(word)?;
    }
    Ok(words)
}
