//! The words of the command line:
//! `arrowpipe [--schema TEXT] [--batch N] [--workers W] [--audit] [--check] [--selftest N] [--null MARK] [--ahead N]
//! [STAGE ...]`.
//!
//! The command is a simple one of `clap`, without help and version flags, and its words are those after the program's
//! name. This module says what the words mean: the options that `clap` promises for them and the words that are no options,
//! which are the stages' texts, in order. Words are refused where `clap` doesn't take them, and then where `--batch`
//! isn't decimal digits, without sign or leading zero, of a number from 1 to 1,000,000, or `--workers` of one from 1 to 64,
//! or `--selftest` of one from 1 to 1,000,000, or `--ahead` of one from 1 to 64; more than 16 stages are a fault of their
//! own, then `--check` beside a stage or `--schema`, and then `--selftest` beside a stage, `--schema` or `--check`. What the
//! text of a schema or of a stage means is left to `stage_plan`. Words are strings, so one that isn't UTF-8 never comes here.
ghost use Rattle.std.specs.Prelude.{◌≡◌, ◌≤◌, false, [], length, map, option_map, None, Some, Ok, IfOk, IfErr, IfSome};
ghost use Rattle.clap.specs.Words.{rule_of, app_of, found_of, rows_of};
ghost use Rattle.fan_out.specs.promise.Counts.{most_workers};
ghost use Rattle.stage_plan.specs.promise.PlanWords.{most_stages};
ghost use Rattle.run_model.specs.promise.Words.{flag_rule, text_rule, arrowpipe, flag_in};
ghost use Rattle.run_model.specs.Words.{bare_command, words_rule};
ghost use Rattle.run_model.specs.Words.{ErrorOf, Explains};
ghost use Rattle.run_model.specs.promise.Words.{asks_of_table, choice_if, number_if, options_in, ruled};
ghost use Rattle.run_model.specs.Words.{options_of};
ghost use Rattle.run_model.specs.promise.Words.{most_ahead, most_batch, most_rows, taken_of, texts_of, words_of};
ghost use Rattle.run_model.specs.Words.{texts_in};
ghost use Rattle.run_model.specs.declared.words.WordsError.TheVariants as error;
ghost use Rattle.run_model.specs.declared.words.WordsFault.TheVariants.{Refused};

use clap::error::ErrorKind;
use clap::{Arg, ArgAction, ArgMatches, Command};
use std::alloc::{AllocError, Global};
use std::fmt;
use tree_check::number_between;

/// How many records a chunk has at most where `--batch` isn't given.
const DEFAULT_BATCH: u32 = 1024;

/// The largest number of `--batch`.
const MOST_BATCH: u32 = 1_000_000;

/// How many workers there are where `--workers` isn't given.
const DEFAULT_WORKERS: u32 = 1;

/// The largest number of `--workers`.
const MOST_WORKERS: u32 = 64;

/// The largest number of `--selftest`.
const MOST_ROWS: u32 = 1_000_000;

/// The largest number of `--ahead`.
const MOST_AHEAD: u32 = 64;

/// The most words that may be no options.
const MOST_STAGES: usize = 16;

/// What the words ask for. The texts are borrowed from the words.
#[derive(Debug, Drop)]
pub struct Words<'a> {
    /// The text of `--schema`, which may be empty.
    pub schema: Option<&'a str>,
    /// The number of `--batch`, how many records a chunk has at most: 1 to 1,000,000, and 1024 without it.
    pub batch: u32,
    /// The number of `--workers`, how many workers share the rows of a chunk: 1 to 64, and 1 without it.
    pub workers: u32,
    /// Whether `--audit` was given.
    pub audit: bool,
    /// Whether `--check` was given: a tree is to be checked. There is then no stage and no schema.
    pub check: bool,
    /// The number of `--selftest`, how many rows are made in place of an input: 1 to 1,000,000. There is then no stage,
    /// no schema and no check.
    pub selftest: Option<u32>,
    /// The text of `--null`, which may be empty.
    pub null: Option<&'a str>,
    /// The number of `--ahead`, how many batches a round reads in a thread ahead of the stages: 1 to 64.
    pub ahead: Option<u32>,
    /// The words that are no options, each a text as it is, in order: at most 16.
    pub stages: Vec<&'a str>,
}

/// Why the words are no command.
#[derive(Clone, Copy, Debug, PartialEq, Eq)]
pub enum WordsFault {
    /// `clap` doesn't take them: an unknown option, an option twice, or one without its text. Or the text of `--batch`,
    /// of `--workers`, of `--selftest` or of `--ahead` is no number that may be.
    Refused,
    /// More than 16 words are no options.
    TooManyStages,
    /// `--check` is given with a stage or with `--schema`, and there are no more than 16 stages.
    UsedWithCheck,
    /// `--selftest` is given with a stage, with `--schema` or with `--check`, and there is neither of the two faults above.
    UsedWithSelftest,
}

/// Why there are no options.
#[derive(Clone, Copy, Debug, PartialEq, Eq)]
pub enum WordsError {
    /// The words have this fault. `audit` tells whether `--audit` was given, but for [`WordsFault::Refused`], where it is false.
    Words { fault: WordsFault, audit: bool },
    /// Memory ran out.
    NoMemory,
}

impl fmt::Display for WordsFault {
    ghost use Rattle.std.specs.Prelude.{Some};
    ghost use Rattle.run_model.specs.promise.FaultTexts.{fault_text};

    ghost output = { λ fault. Some (fault_text fault) };

    fn fmt<W: fmt::Write>(&self, f: &mut fmt::Formatter<W>) -> fmt::Result {
        f.write_str(match self {
            WordsFault::Refused => "words refused",
            WordsFault::TooManyStages => "words: more than 16 stages",
            WordsFault::UsedWithCheck => "words: --check takes no stage and no --schema",
            WordsFault::UsedWithSelftest => {
                "words: --selftest takes no stage, no --schema and no --check"
            }
        })
    }
}

impl std::error::Error for WordsFault {}

impl fmt::Display for WordsError {
    ghost use Rattle.std.specs.Prelude.{Some};
    ghost use Rattle.run_model.specs.FaultTexts.{error_text};

    ghost output = { λ error. Some (error_text error) };

    fn fmt<W: fmt::Write>(&self, f: &mut fmt::Formatter<W>) -> fmt::Result {
        match self {
            WordsError::Words { fault, audit: _ } => write!(f, "{fault}"),
            WordsError::NoMemory => f.write_str("out of memory"),
        }
    }
}

impl std::error::Error for WordsError {}

/// Reads the words after the program's name. `--schema -a:u` is refused and `--schema=-a:u` taken, since a text
/// that is a word of its own may not begin with `-`, unless it is `-` alone; so it is with `--null` and with a
/// stage. Behind `--` each word is a stage, whatever it begins with.
pub fn read_words<'a>(alloc: Global, words: &'a [String]) -> Result<Words<'a>, WordsError>
    ensures taken { IfOk result (λ w. words_of (texts_of words.now) ≡ Ok (options_of w)) }
    ensures asked { IfOk result (λ w. taken_of (texts_of words.now) ≡ Some (options_of w)) }
    ensures refused { IfErr result (Explains (taken_of (texts_of words.now))) }
    ensures batch { IfOk result (λ w. (1 ≤ w.batch) × (w.batch ≤ most_batch)) }
    ensures workers { IfOk result (λ w. (1 ≤ w.workers) × (w.workers ≤ most_workers)) }
    ensures rows { IfOk result (λ w. IfSome w.selftest (λ n. (1 ≤ n) × (n ≤ most_rows))) }
    ensures ahead { IfOk result (λ w. IfSome w.ahead (λ n. (1 ≤ n) × (n ≤ most_ahead))) }
    ensures few { IfOk result (λ w. length w.stages.items ≤ most_stages) }
    ensures fits { IfOk result (λ w. IfSome w.selftest (λ n. (w.check ≡ false) × (w.schema ≡ None) × (w.stages.items ≡ []))) }
{
    let command = match command(alloc) {
        Ok(command) => command,
        Err(_) => return Err(WordsError::NoMemory),
    };
    match command.try_get_matches_from(words) {
        Ok(matches) => options(alloc, &matches),
        Err(error) => Err(error_by(error.kind())),
    }
}

/// The command, whose words begin after the program's name.
fn command<'a>(alloc: Global) -> Result<Command<'a>, AllocError>
    ensures { IfOk result (λ c. app_of c ≡ arrowpipe) }
{
    let command = bare_command(alloc)
        .arg(text_option(alloc, "schema"))?
        .arg(text_option(alloc, "batch"))?
        .arg(text_option(alloc, "workers"))?
        .arg(flag_option(alloc, "audit"))?
        .arg(flag_option(alloc, "check"))?
        .arg(text_option(alloc, "selftest"))?
        .arg(text_option(alloc, "null"))?
        .arg(text_option(alloc, "ahead"))?
        .arg(lone_words(alloc, "stage"))?;
    Ok(command)
}

/// The command without arguments and without a help flag.
fn bare_command<'a>(alloc: Global) -> Command<'a>
    ensures { app_of result ≡ bare_command }
{
    Command::new(alloc, "arrowpipe")
        .no_binary_name(true)
        .disable_help_flag(true)
}

/// An option that takes a text.
fn text_option<'a>(alloc: Global, name: &'a str) -> Arg<'a>
    ensures rule { rule_of result ≡ text_rule name.entry.now }
    ensures local { result.global ≡ false }
{
    Arg::new(alloc, name).long(name)
}

/// An option that takes nothing.
fn flag_option<'a>(alloc: Global, name: &'a str) -> Arg<'a>
    ensures rule { rule_of result ≡ flag_rule name.entry.now }
    ensures local { result.global ≡ false }
{
    text_option(alloc, name).action(ArgAction::SetTrue)
}

/// Words that are no options, as many as there are.
fn lone_words<'a>(alloc: Global, name: &'a str) -> Arg<'a>
    ensures rule { rule_of result ≡ words_rule name.entry.now }
    ensures local { result.global ≡ false }
{
    Arg::new(alloc, name).action(ArgAction::Append)
}

/// The error of words that clap did not take.
fn error_by(kind: ErrorKind) -> WordsError
    ensures { ErrorOf kind result }
{
    match kind {
        ErrorKind::OutOfMemory => WordsError::NoMemory,
        _ => refused(),
    }
}

/// The words are refused.
fn refused() -> WordsError
    ensures { result ≡ error.Words Refused false }
{
    WordsError::Words {
        fault: WordsFault::Refused,
        audit: false,
    }
}

/// What the matches ask for.
fn options<'a>(alloc: Global, matches: &ArgMatches<'a>) -> Result<Words<'a>, WordsError>
    ensures taken { IfOk result (λ w. ruled (options_in (rows_of (found_of matches.now))) ≡ Ok (options_of w)) }
    ensures asked { IfOk result (λ w. options_in (rows_of (found_of matches.now)) ≡ Some (options_of w)) }
    ensures refused { IfErr result (Explains (options_in (rows_of (found_of matches.now)))) }
    ensures batch { IfOk result (λ w. (1 ≤ w.batch) × (w.batch ≤ most_batch)) }
    ensures workers { IfOk result (λ w. (1 ≤ w.workers) × (w.workers ≤ most_workers)) }
    ensures rows { IfOk result (λ w. IfSome w.selftest (λ n. (1 ≤ n) × (n ≤ most_rows))) }
    ensures ahead { IfOk result (λ w. IfSome w.ahead (λ n. (1 ≤ n) × (n ≤ most_ahead))) }
    ensures few { IfOk result (λ w. length w.stages.items ≤ most_stages) }
    ensures fits { IfOk result (λ w. IfSome w.selftest (λ n. (w.check ≡ false) × (w.schema ≡ None) × (w.stages.items ≡ []))) }
{
    let Some(batch) = number_given(matches.get_str("batch"), DEFAULT_BATCH, MOST_BATCH) else {
        return Err(refused());
    };
    let Some(workers) = number_given(matches.get_str("workers"), DEFAULT_WORKERS, MOST_WORKERS)
    else {
        return Err(refused());
    };
    let Some(selftest) = choice_given(matches.get_str("selftest"), MOST_ROWS) else {
        return Err(refused());
    };
    let Some(ahead) = choice_given(matches.get_str("ahead"), MOST_AHEAD) else {
        return Err(refused());
    };
    let stages = match lone_texts(alloc, matches, "stage") {
        Ok(stages) => stages,
        Err(_) => return Err(WordsError::NoMemory),
    };
    fitting(Words {
        schema: matches.get_str("schema"),
        batch,
        workers,
        audit: flag(matches, "audit"),
        check: flag(matches, "check"),
        selftest,
        null: matches.get_str("null"),
        ahead,
        stages,
    })
}

/// The options, where there are no more stages than may be, no stage and no schema where a tree is checked, and none of
/// these and no check where rows are made.
fn fitting<'a>(words: Words<'a>) -> Result<Words<'a>, WordsError>
    ensures taken { IfOk result (λ w. ruled (Some (options_of words.entry)) ≡ Ok (options_of w)) }
    ensures asked { IfOk result (λ w. Some (options_of words.entry) ≡ Some (options_of w)) }
    ensures refused { IfErr result (Explains (Some (options_of words.entry))) }
    ensures batch { IfOk result (λ w. w.batch ≡ words.entry.batch) }
    ensures workers { IfOk result (λ w. w.workers ≡ words.entry.workers) }
    ensures rows { IfOk result (λ w. w.selftest ≡ words.entry.selftest) }
    ensures ahead { IfOk result (λ w. w.ahead ≡ words.entry.ahead) }
    ensures few { IfOk result (λ w. length w.stages.items ≤ most_stages) }
    ensures fits { IfOk result (λ w. IfSome w.selftest (λ n. (w.check ≡ false) × (w.schema ≡ None) × (w.stages.items ≡ []))) }
{
    if words.stages.len() > MOST_STAGES {
        return Err(ruled_out(WordsFault::TooManyStages, &words));
    }
    if words.check && asks_of_table(&words) {
        return Err(ruled_out(WordsFault::UsedWithCheck, &words));
    }
    if words.selftest.is_some() && (words.check || asks_of_table(&words)) {
        return Err(ruled_out(WordsFault::UsedWithSelftest, &words));
    }
    Ok(words)
}

/// A fault of words that may ask for the audit.
fn ruled_out(fault: WordsFault, words: &Words<'_>) -> WordsError
    ensures { result ≡ error.Words fault words.now.audit }
{
    WordsError::Words {
        fault,
        audit: words.audit,
    }
}

/// Whether a stage or a schema is asked for.
fn asks_of_table(words: &Words<'_>) -> bool
    ensures { result ≡ asks_of_table (options_of words.now) }
{
    words.schema.is_some() || words.stages.len() > 0
}

/// The number that the text of an option spells, where it is one from 1 to the most; the usual one without a text.
fn number_given(text: Option<&str>, usual: u32, most: u32) -> Option<u32>
    ensures { result ≡ number_if usual most (option_map (λ s. s.now) text.entry) }
{
    match text {
        Some(text) => number_between(text, 1, most),
        None => Some(usual),
    }
}

/// The number that the text of an option spells, where it is one from 1 to the most; no number without a text.
fn choice_given(text: Option<&str>, most: u32) -> Option<Option<u32>>
    ensures { result ≡ choice_if most (option_map (λ s. s.now) text.entry) }
{
    match text {
        Some(text) => number_between(text, 1, most).map(Some),
        None => Some(None),
    }
}

/// The words that are no options.
fn lone_texts<'a>(
    alloc: Global,
    matches: &ArgMatches<'a>,
    id: &str,
) -> Result<Vec<&'a str>, AllocError>
    ensures { IfOk result (λ texts. map (λ s. s.now) texts.items ≡ texts_in id.now (rows_of (found_of matches.now))) }
{
    match matches.get_strs(id) {
        Some(texts) => Vec::from_slice(alloc, texts),
        None => Ok(Vec::new(alloc)),
    }
}

/// Whether a flag was given.
fn flag(matches: &ArgMatches<'_>, id: &str) -> bool
    ensures { result ≡ flag_in id.now (rows_of (found_of matches.now)) }
{
    match matches.get_str(id) {
        Some(text) => text == "true",
        None => false,
    }
}
