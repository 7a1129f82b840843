//! The text of a fault of a run, of which its line on the sink of diagnostics and its `Display` are made.
ghost use Rattle.std.specs.Prelude.{◌≡◌, ◌++◌, codes, decimal};
ghost use Rattle.run_model.specs.promise.Diagnostics.{fault_text};
ghost use Rattle.run_model.specs.NumberedTexts.{digits_of, numbered_text, message_text};

use crate::WordsFault;
use crate::fault::RunFault;
use itoa::Buffer;
use std::fmt;
use tree_check::TreeFault;

/// A text with at most two numbers in it.
#[derive(Clone, Copy)]
pub(crate) struct NumberedText {
    pub(crate) front: &'static str,
    pub(crate) first: Option<u64>,
    pub(crate) middle: &'static str,
    pub(crate) second: Option<u64>,
    pub(crate) back: &'static str,
}

/// What is written of a fault: a text with at most two numbers in it, or the fault of a tree, whose way to a node may be long.
#[derive(Clone, Copy)]
pub(crate) enum Told {
    Text(NumberedText),
    Tree(TreeFault),
}

/// A text without a number.
fn plain(text: &'static str) -> Told
    ensures { message_text result ≡ text.now }
{
    Told::Text(NumberedText {
        front: text,
        first: None,
        middle: "",
        second: None,
        back: "",
    })
}

/// A text with a number.
fn counted(front: &'static str, number: u64, back: &'static str) -> Told
    ensures { message_text result ≡ front.now ++ decimal number ++ back.now }
{
    Told::Text(NumberedText {
        front,
        first: Some(number),
        middle: back,
        second: None,
        back: "",
    })
}

/// A text with a number, and what is wrong there behind it.
fn explained(front: &'static str, number: u64, why: &'static str) -> Told
    ensures { message_text result ≡ front.now ++ decimal number ++ codes ": " ++ why.now }
{
    Told::Text(NumberedText {
        front,
        first: Some(number),
        middle: ": ",
        second: None,
        back: why,
    })
}

/// A text with two numbers.
fn placed(
    front: &'static str,
    first: u64,
    middle: &'static str,
    second: u64,
    back: &'static str,
) -> Told
    ensures { message_text result ≡ front.now ++ decimal first ++ middle.now ++ decimal second ++ back.now }
{
    Told::Text(NumberedText {
        front,
        first: Some(first),
        middle,
        second: Some(second),
        back,
    })
}

/// What is written of a fault.
pub(crate) fn message_of(fault: RunFault) -> Told
    ensures { message_text result ≡ fault_text fault }
{
    match fault {
        RunFault::Words(WordsFault::Refused) => plain("words refused"),
        RunFault::Words(WordsFault::TooManyStages) => plain("words: more than 16 stages"),
        RunFault::Words(WordsFault::UsedWithCheck) => {
            plain("words: --check takes no stage and no --schema")
        }
        RunFault::Words(WordsFault::UsedWithSelftest) => {
            plain("words: --selftest takes no stage, no --schema and no --check")
        }
        RunFault::Stage { stage, rule } => explained("stage ", stage as u64, rule.text()),
        RunFault::Schema { entry, rule } => explained("schema entry ", entry, rule.text()),
        RunFault::Plan { stage, rule } => explained("stage ", stage as u64, rule.text()),
        RunFault::NoHeader => plain("no header"),
        RunFault::TooManyColumns { count } => counted("header has ", count, " columns"),
        RunFault::HeaderText { column } => {
            counted("header column ", column as u64, ": not UTF-8")
        }
        RunFault::HeaderTwice { column } => {
            counted("header column ", column as u64, ": named before")
        }
        RunFault::HeaderUnknown { entry } => { counted("schema entry ", entry, ": no such column") }
        RunFault::Ragged { row, found } => placed("record ", row, ": ", found, " fields"),
        RunFault::Field { row, column } => placed(
            "record ",
            row,
            ", column ",
            column as u64,
            ": not a value of its type",
        ),
        RunFault::InputTooLong => plain("input longer than 1073741824 bytes"),
        RunFault::ReadFault => plain("read failed"),
        RunFault::WriteFault { taken } => counted("write failed after ", taken, " bytes"),
        RunFault::Tree(fault) => Told::Tree(fault),
        RunFault::NoMemory => plain("out of memory"),
    }
}

/// The digits of a number, and nothing where there is none.
pub(crate) fn digits<'a>(number: Option<u64>, room: &'a mut Buffer) -> &'a str
    ensures { result.now ≡ digits_of number }
{
    match number {
        Some(number) => room.format(number),
        None => "",
    }
}

impl fmt::Display for NumberedText {
    ghost use Rattle.std.specs.Prelude.{Some};
    ghost use Rattle.run_model.specs.NumberedTexts.{numbered_text};

    ghost output = { λ said. Some (numbered_text said) };

    fn fmt<W: fmt::Write>(&self, f: &mut fmt::Formatter<W>) -> fmt::Result {
        let mut one = Buffer::new();
        let mut two = Buffer::new();
        f.write_str(self.front)?;
        f.write_str(digits(self.first, &mut one))?;
        f.write_str(self.middle)?;
        f.write_str(digits(self.second, &mut two))?;
        f.write_str(self.back)
    }
}

impl fmt::Display for RunFault {
    ghost use Rattle.std.specs.Prelude.{Some};
    ghost use Rattle.run_model.specs.promise.Diagnostics.{fault_text};

    ghost output = { λ fault. Some (fault_text fault) };

    fn fmt<W: fmt::Write>(&self, f: &mut fmt::Formatter<W>) -> fmt::Result {
        match message_of(*self) {
            Told::Text(said) => write!(f, "{said}"),
            Told::Tree(fault) => write!(f, "{fault}"),
        }
    }
}

impl std::error::Error for RunFault {}
