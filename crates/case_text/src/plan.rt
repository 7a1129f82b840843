//! What a case of a run asks for: the words, the input, and how the source, the sinks and the tap behave.
use crate::{Case, End, push_input};
use std::alloc::{AllocError, Global};

/// What a run is called with.
#[derive(Drop)]
pub struct Plan {
    pub words: Vec<String>,
    pub input: Vec<u8>,
    pub read: End,
    pub write: End,
    pub lines: End,
    /// Whether a tap is to keep what it is shown. A run without a tap refuses that.
    pub is_tapped: bool,
}

impl Plan {
    /// Takes a `<` or an `@` line, and says whether it is of a form that there is.
    fn take(&mut self, alloc: Global, line: &str) -> Result<bool, AllocError> {
        let Some(text) = line.strip_prefix("@ ") else {
            return push_input(&mut self.input, alloc, line);
        };
        match text.split_once(' ').unwrap_or((text, "")) {
            ("read", text) => Ok(self.read.take(text)),
            ("write", text) => Ok(self.write.take(text)),
            ("lines", text) => Ok(self.lines.take(text)),
            ("tap", "") => {
                self.is_tapped = true;
                Ok(true)
            }
            _ => Ok(false),
        }
    }

    /// What the lines of a case ask for. None where one is of no form that there is.
    pub fn of(alloc: Global, case: &Case) -> Result<Option<Plan>, AllocError> {
        let Some(words) = case.texts(alloc)? else {
            return Ok(None);
        };
        let mut plan = Plan {
            words,
            input: Vec::new(alloc),
            read: End::new(7),
            write: End::new(5),
            lines: End::new(5),
            is_tapped: false,
        };
        for line in &case.lines {
            if !plan.take(alloc, line.as_str())? {
                return Ok(None);
            }
        }
        Ok(Some(plan))
    }
}
