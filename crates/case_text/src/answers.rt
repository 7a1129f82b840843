//! The answers of a case, and how they are written: line by line, or behind a row.
use crate::spelling::spelled_lines;
use md5::{Digest, Md5};
use std::alloc::{AllocError, Global};
use std::io;
use unit_pass::Audit;

/// Of a text with more lines the first ones are written, and the digest of the whole.
const MOST_LINES: usize = 40;

const FIRST_LINES: usize = 2;

/// The lines of what came of a case, each with its sign.
#[derive(Drop)]
pub struct Answers {
    lines: Vec<String>,
}

/// How many lines and bytes a text has, and the digest by which `md5sum` knows it.
fn summary(alloc: Global, lines: usize, bytes: &[u8]) -> Result<String, AllocError> {
    let mut text = format!(in alloc; ".. {lines} lines, {} bytes, md5 ", bytes.len())?;
    for byte in Md5::digest(bytes) {
        text.push_str(format!(in alloc; "{byte:02x}")?.as_str())?;
    }
    Ok(text)
}

impl Answers {
    pub fn new(alloc: Global) -> Answers {
        Answers {
            lines: Vec::new(alloc),
        }
    }

    /// Adds a line behind this sign and a blank.
    pub fn push(&mut self, alloc: Global, sign: &str, line: &str) -> Result<(), AllocError> {
        let blank = if line.is_empty() { "" } else { " " };
        self.lines.push(format!(in alloc; "{sign}{blank}{line}")?)?;
        Ok(())
    }

    /// Adds the lines that spell a text behind this sign. Of more than 40 lines the first two are added, and a summary of the text.
    pub fn push_text(&mut self, alloc: Global, sign: &str, bytes: &[u8]) -> Result<(), AllocError> {
        let lines = spelled_lines(alloc, bytes)?;
        let is_long = lines.len() > MOST_LINES;
        let count = if is_long { FIRST_LINES } else { MOST_LINES };
        for line in lines.iter().take(count) {
            self.push(alloc, sign, line.as_str())?;
        }
        if is_long {
            let line = summary(alloc, lines.len(), bytes)?;
            self.push(alloc, sign, line.as_str())?;
        }
        Ok(())
    }

    /// Adds the `=` line of a run that ended so, and what was made where it has no fault. Behind a row there is no more than the
    /// end, and nothing where it is the status 0 alone.
    pub fn push_end(
        &mut self,
        alloc: Global,
        end: String,
        made: Option<Audit>,
        is_row: bool,
    ) -> Result<(), AllocError> {
        let mut end = end;
        match made {
            Some(made) if !is_row => {
                let made = format!(in alloc; ", {} blocks, {} nodes", made.blocks, made.nodes)?;
                end.push_str(made.as_str())?;
            }
            _ => {}
        }
        if is_row && end.as_str() == "0" {
            return Ok(());
        }
        self.push(alloc, "=", end.as_str())
    }

    /// Writes them line by line.
    pub fn write(&self, rt: &impl Print) -> io::Result<()> {
        for line in &self.lines {
            println!(rt; "{line}")?;
        }
        Ok(())
    }

    /// Writes a row, and behind it all of them on one line, ` | ` between them. A line of a text is written without its `>`.
    pub fn write_row(&self, rt: &impl Print, row: &str) -> io::Result<()> {
        print!(rt; "? {row} ->")?;
        let mut between = " ";
        for line in &self.lines {
            let line = line.as_str();
            print!(rt; "{between}{}", line.strip_prefix("> ").unwrap_or(line))?;
            between = " | ";
        }
        println!(rt; "")
    }
}
