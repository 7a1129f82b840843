//! How far a text was read.
ghost use Rattle.std.specs.Prelude.{◌≡◌, ◌+◌, [], ◌∷◌, Some, None, IfSome, IfNone};
ghost use Rattle.tree_text.specs.declared.fault.TextFault.TheVariants.{Line};
ghost use Rattle.tree_text.specs.Cursors.{left, IsCursor};

use crate::fault::TextFault;
use crate::lines::next_line;

/// A line's place in the text, in bytes, and its number from 1.
#[derive(Clone, Copy)]
pub struct Cursor {
    pub at: usize,
    pub line: u64,
}

impl Cursor {
    /// The fault of the line here.
    pub fn fault(&self) -> TextFault
        ensures { result ≡ Line self.now.line }
    {
        TextFault::Line { line: self.line }
    }

    /// The line here, and the cursor of the next one.
    pub fn take_line<'a>(&self, bytes: &'a [u8]) -> Option<(&'a [u8], Cursor)>
        requires { IsCursor bytes.now self.now }
        ensures taken { IfSome result (λ r. left bytes.now self.now ≡ r.0.now ∷ left bytes.now r.1) }
        ensures cursor { IfSome result (λ r. IsCursor bytes.now r.1) }
        ensures number { IfSome result (λ r. r.1.line ≡ self.now.line + 1) }
        ensures none { IfNone result (left bytes.now self.now ≡ []) }
    {
        match next_line(bytes, self.at) {
            Some((line, at)) => Some((
                line,
                Cursor {
                    at,
                    line: self.line + 1,
                },
            )),
            None => None,
        }
    }
}
