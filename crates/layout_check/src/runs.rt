//! Texts in a buffer which isn't text as a whole.
ghost use Rattle.std.specs.Prelude.{◌≡◌, IsTrue, ◌+◌, ◌-◌, ◌<◌, ◌≤◌, length, take, drop, IsUtf8};
ghost use Rattle.std.specs.Str.{IsCharBoundary};
ghost use Rattle.layout_check.specs.Scans.{IsRun};

use crate::texts::is_text;

/// A text in a buffer, from one place to another.
#[derive(Clone, Copy)]
pub struct Run {
    pub from: usize,
    pub to: usize,
}

/// A place at which a text may be cut.
#[inline(always)]
pub(crate) fn is_border(text: &[u8], place: usize) -> bool
    ensures { IsTrue result → IsCharBoundary text.now place }
{
    if place >= text.len() {
        return place == text.len();
    }
    text[place] < 128 || text[place] >= 192
}

/// The first place, from one on, at which a text may be cut.
fn border_from(text: &[u8], from: usize) -> usize
    ensures { IsCharBoundary text.now result }
{
    let mut at = from;
    while at < text.len() {
        if is_border(text, at) {
            return at;
        }
        at += 1;
    }
    text.len()
}

/// The text that begins at a place, as far as it goes.
pub(crate) fn run_from(bytes: &[u8], from: usize) -> Run
    requires { from < length bytes.now }
    ensures run { IsRun bytes.now result }
    ensures order { from ≤ result.to }
{
    match str::from_utf8(&bytes[from..]) {
        Ok(_) => Run {
            from,
            to: bytes.len(),
        },
        Err(error) => Run {
            from,
            to: from + error.valid_up_to(),
        },
    }
}

/// What is behind the first border of a run, from a place on.
#[tactic(auto, using(crate::proofs::TextRuns::cuts))]
pub(crate) fn rest_of(bytes: &[u8], run: Run, place: usize) -> Run
    requires { IsRun bytes.now run }
    ensures { IsRun bytes.now result }
{
    if place < run.from {
        return run;
    }
    let begin = border_from(&bytes[run.from..run.to], place - run.from);
    Run {
        from: run.from + begin,
        to: run.to,
    }
}

/// A part of a buffer is text up to where a run begins in it, and the run goes on from there.
#[tactic(auto, using(crate::proofs::TextRuns::parts))]
pub(crate) fn goes_on(bytes: &[u8], run: Run, from: usize, to: usize) -> bool
    requires order { from ≤ to }
    requires within { to ≤ length bytes.now }
    requires run { IsRun bytes.now run }
    ensures { IsTrue result → IsUtf8 (take (to - from) (drop from bytes.now)) }
{
    if run.from < from || to < run.from || run.to < to {
        return false;
    }
    is_border(&bytes[run.from..run.to], to - run.from) && is_text(&bytes[from..run.from])
}
