//! Stage texts: the name of a stage, `=`, and its arguments.
ghost use Rattle.std.specs.Prelude.{◌≡◌, ◌≢◌, List, ℕ, IfOk, IfErr, IfSome, IfNone, option_map, Some, None};
ghost use Rattle.stage_model.specs.promise.StageGrammar.{comma, comparisons, cut_at, lone_tests, names_in, one_name, read_filter, read_pack};
ghost use Rattle.stage_model.specs.StageGrammar.{StageIs, StageFaultIs, word_named};
ghost use Rattle.stage_model.specs.promise.StageGrammar.{read_slice, stage_words, test_if, test_named, window_number};
ghost use Rattle.stage_model.specs.declared.fault.StageFault.TheVariants as faults;
ghost use Rattle.stage_model.specs.declared.stage.StageText.{StageText as AStage};
ghost use Rattle.stage_model.specs.declared.stage.StageText.TheVariants as texts;
ghost use Rattle.stage_plan.specs.StageWords.{lone_fault, starts_with_digit, word_of};

use crate::cut::cut;
use field_codec::read_whole;
use stage_model::{Names, StageFault, StageText, Test};
use std::alloc::Global;
use unit_pass::{Name, NoMemory};

/// The stage that a text spells: the name of a stage, the first `=`, and arguments, apart by commas. A name of a column is
/// any text without a comma; the constant of a filter is all that follows its second comma.
///
/// Each text is one stage or has one fault, which is answered unless memory runs out.
pub fn read_stage(alloc: Global, text: &str) -> Result<StageText, StageFault>
    // What is read is the text's stage.
    ensures found { IfOk result (StageIs text.now) }
    // Which fault it is.
    ensures fault { IfErr result (λ f. f ≢ faults.NoMemory → StageFaultIs text.now f) }
{
    let text = text.as_bytes();
    let Some((word, arguments)) = cut(text, b'=') else {
        return Err(fault_of_word(text));
    };
    let Some(stage) = stage_named(word) else {
        return Err(StageFault::UnknownStage);
    };
    match read_arguments(alloc, stage, arguments) {
        Ok(Some(read)) => Ok(read),
        Ok(None) => Err(StageFault::BadArguments),
        Err(NoMemory) => Err(StageFault::NoMemory),
    }
}

/// The stages that have a name.
#[derive(Clone, Copy)]
enum StageName {
    Select,
    Drop,
    Slice,
    Filter,
    Pack,
    Unpack,
    Dict,
    Plain,
    Totals,
}

/// The stage of a name.
fn stage_named(word: &[u8]) -> Option<StageName>
    ensures { option_map word_of result ≡ word_named stage_words word.now }
{
    match word {
        b"select" => Some(StageName::Select),
        b"drop" => Some(StageName::Drop),
        b"slice" => Some(StageName::Slice),
        b"filter" => Some(StageName::Filter),
        b"pack" => Some(StageName::Pack),
        b"unpack" => Some(StageName::Unpack),
        b"dict" => Some(StageName::Dict),
        b"plain" => Some(StageName::Plain),
        b"totals" => Some(StageName::Totals),
        _ => None,
    }
}

/// What is wrong with a text that has no `=`.
fn fault_of_word(word: &[u8]) -> StageFault
    ensures { result ≡ lone_fault (word_named stage_words word.now) }
{
    match stage_named(word) {
        Some(_) => StageFault::BadArguments,
        None => StageFault::UnknownStage,
    }
}

/// The stage that arguments spell, or none.
fn read_arguments(
    alloc: Global,
    stage: StageName,
    arguments: &[u8],
) -> Result<Option<StageText>, NoMemory>
    ensures { IfOk result (λ read. read ≡ (word_of stage).read arguments.now) }
{
    match stage {
        StageName::Select => Ok(Some(StageText::Select {
            names: names_in(alloc, arguments)?,
        })),
        StageName::Drop => Ok(Some(StageText::Drop {
            names: names_in(alloc, arguments)?,
        })),
        StageName::Slice => Ok(read_slice(arguments)),
        StageName::Filter => read_filter(alloc, arguments),
        StageName::Pack => read_pack(alloc, arguments),
        StageName::Unpack => {
            Ok(one_name(alloc, arguments)?.map(|name| StageText::Unpack { name }))
        }
        StageName::Dict => Ok(one_name(alloc, arguments)?.map(|name| StageText::Dict { name })),
        StageName::Plain => Ok(one_name(alloc, arguments)?.map(|name| StageText::Plain { name })),
        StageName::Totals => Ok(Some(StageText::Totals {
            names: names_in(alloc, arguments)?,
        })),
    }
}

/// The names between the commas.
fn names_in(alloc: Global, arguments: &[u8]) -> Result<Names, NoMemory>
    ensures { IfOk result (λ names. names ≡ names_in arguments.now) }
{
    let mut names = Vec::new(alloc);
    let mut rest = arguments;
    while let Some((name, behind)) = cut(rest, b',') {
        names.push(Name::from_slice(alloc, name)?)?;
        rest = behind;
    }
    names.push(Name::from_slice(alloc, rest)?)?;
    Ok(Names::from_vec(names))
}

/// The rows from a number on, this many.
fn read_slice(arguments: &[u8]) -> Option<StageText>
    ensures { result ≡ read_slice (cut_at comma arguments.now) }
{
    let (off, len) = cut(arguments, b',')?;
    let off = window_number(off)?;
    let len = window_number(len)?;
    Some(StageText::Slice { off, len })
}

/// The most digits of a number of rows.
const MOST_DIGITS: usize = 19;

/// The number that 1 to 19 digits spell, below 2^63.
fn window_number(digits: &[u8]) -> Option<u64>
    ensures { result ≡ window_number digits.now }
{
    if digits.len() > MOST_DIGITS || !starts_with_digit(digits) {
        return None;
    }
    match read_whole(64, true, digits) {
        Some(number) => Some(number as u64),
        None => None,
    }
}

/// Whether the first byte is a digit, and so no sign.
fn starts_with_digit(text: &[u8]) -> bool
    ensures { result ≡ starts_with_digit text.now }
{
    match text {
        [first, ..] => first.is_ascii_digit(),
        [] => false,
    }
}

/// A name, a comma and a test.
fn read_filter(alloc: Global, arguments: &[u8]) -> Result<Option<StageText>, NoMemory>
    ensures { IfOk result (λ read. read ≡ read_filter (cut_at comma arguments.now)) }
{
    let Some((name, rest)) = cut(arguments, b',') else {
        return Ok(None);
    };
    let Some((test, constant)) = read_test(rest) else {
        return Ok(None);
    };
    let name = Name::from_slice(alloc, name)?;
    let constant = Name::from_slice(alloc, constant)?;
    Ok(Some(StageText::Filter {
        name,
        test,
        constant,
    }))
}

/// A test alone; or a comparison, a comma and the constant.
fn read_test(text: &[u8]) -> Option<(Test, &[u8])>
    ensures { (name : List ℕ) → option_map (λ x. texts.Filter name x.0 x.1.now) result ≡ test_if (test_named lone_tests text.now) name text.now }
{
    if let Some(test) = lone_test(text) {
        return Some((test, &[]));
    }
    let (word, constant) = cut(text, b',')?;
    let test = comparison(word)?;
    Some((test, constant))
}

/// The test of a word that no constant follows.
fn lone_test(word: &[u8]) -> Option<Test>
    ensures { result ≡ test_named lone_tests word.now }
{
    match word {
        b"null" => Some(Test::Null),
        b"valid" => Some(Test::Valid),
        _ => None,
    }
}

/// The test of a word that a constant follows.
fn comparison(word: &[u8]) -> Option<Test>
    ensures { result ≡ test_named comparisons word.now }
{
    match word {
        b"eq" => Some(Test::Eq),
        b"ne" => Some(Test::Ne),
        b"lt" => Some(Test::Lt),
        b"le" => Some(Test::Le),
        b"gt" => Some(Test::Gt),
        b"ge" => Some(Test::Ge),
        _ => None,
    }
}

/// A new name, a comma and the names of columns.
fn read_pack(alloc: Global, arguments: &[u8]) -> Result<Option<StageText>, NoMemory>
    ensures { IfOk result (λ read. read ≡ read_pack (cut_at comma arguments.now)) }
{
    let Some((made, rest)) = cut(arguments, b',') else {
        return Ok(None);
    };
    let made = Name::from_slice(alloc, made)?;
    let names = names_in(alloc, rest)?;
    Ok(Some(StageText::Pack { made, names }))
}

/// The one name, or none where there are more.
fn one_name(alloc: Global, arguments: &[u8]) -> Result<Option<Name>, NoMemory>
    ensures { IfOk result (λ read. (stage : List ℕ → AStage) → option_map stage read ≡ one_name stage (names_in arguments.now)) }
{
    match cut(arguments, b',') {
        Some(_) => Ok(None),
        None => {
            let name = Name::from_slice(alloc, arguments)?;
            Ok(Some(name))
        }
    }
}
