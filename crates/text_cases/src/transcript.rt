//! What came of a case.
use case_text::Answers;
use std::alloc::{AllocError, Global};
use unit_pass::Audit;

/// What came of a case, line by line.
#[derive(Drop)]
pub(crate) struct Transcript {
    pub(crate) answers: Answers,
}

impl Transcript {
    pub(crate) fn new(alloc: Global) -> Transcript {
        Transcript {
            answers: Answers::new(alloc),
        }
    }

    /// A line that was answered.
    pub(crate) fn answer(&mut self, alloc: Global, line: &str) -> Result<(), AllocError> {
        self.answers.push(alloc, ">", line)
    }

    /// A text that was answered.
    pub(crate) fn text(&mut self, alloc: Global, text: &[u8]) -> Result<(), AllocError> {
        self.answers.push_text(alloc, ">", text)
    }

    /// The text of a fault.
    pub(crate) fn fault(&mut self, alloc: Global, text: &str) -> Result<(), AllocError> {
        self.answers.push(alloc, "!", text)
    }

    /// How many blocks and nodes were made, and how many units are left.
    pub(crate) fn made(&mut self, alloc: Global, audit: &Audit) -> Result<(), AllocError> {
        let mut line = format!(in alloc; "{} blocks, {} nodes", audit.blocks, audit.nodes)?;
        if audit.left != 0 {
            line.push_str(format!(in alloc; ", {} left", audit.left)?.as_str())?;
        }
        self.answers.push(alloc, "=", line.as_str())
    }
}
