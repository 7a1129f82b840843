//! The commands of the program for trees, and the words that spell them.
ghost use Rattle.std.specs.Prelude.{◌≡◌, string_bytes};
ghost use Rattle.std.specs.Str.{bytes_eq};
ghost use Rattle.tree_top.specs.promise.Answer.{command_named, command_of, texts_of};
ghost use Rattle.tree_top.specs.Answer.{command_of_column};
ghost use Rattle.tree_top.specs.promise.Columns.{column_number};

use crate::column_number::column_number;

/// What the words ask for.
#[derive(Clone, Copy, Debug, PartialEq, Eq)]
pub enum Command {
    /// A line for each item of a tree of any kind.
    Rows,
    /// A line for each item of a union: its type id and its value.
    Union,
    /// A line for each row of a chunk: the number of its first column that isn't null, and the value there. The columns are made the
    /// children of a union for it, sparse or dense.
    Tag { dense: bool },
    /// A line for each row of a chunk that a foreign producer owns.
    Foreign,
    /// A line for each run of equal values of a flat column: the place behind its last item, and its value.
    Runs,
    /// A line for each item of a run-end encoded array.
    Flat,
    /// A line for each row of a chunk of which the lists in a column are spread out. Columns are counted from 0.
    Explode { column: u32 },
    /// A line for each distinct value of a column of a chunk: the value, and of each other column the list of its values in the rows with
    /// it.
    Nest { column: u32 },
}

/// The command that the words after the program's name spell; none where they spell none.
pub(crate) fn read_command(words: &[String]) -> Option<Command>
    ensures { result ≡ command_of (texts_of words.now) }
{
    match words {
        [] => Some(Command::Rows),
        [word] => named(word),
        [word, number] => of_column(word, number),
        _ => None,
    }
}

/// The command of this name.
fn named(word: &String) -> Option<Command>
    ensures { result ≡ command_named (string_bytes word.now) }
{
    let word = word.as_bytes();
    if is_word(word, b"union") {
        return Some(Command::Union);
    }
    if is_word(word, b"tag") {
        return Some(Command::Tag { dense: false });
    }
    if is_word(word, b"tagdense") {
        return Some(Command::Tag { dense: true });
    }
    if is_word(word, b"foreign") {
        return Some(Command::Foreign);
    }
    if is_word(word, b"runs") {
        return Some(Command::Runs);
    }
    if is_word(word, b"flat") {
        return Some(Command::Flat);
    }
    None
}

/// The command of a column, by its name and by the column's number.
fn of_column(word: &String, number: &String) -> Option<Command>
    ensures { result ≡ command_of_column (string_bytes word.now) (column_number (string_bytes number.now)) }
{
    let column = column_number(number.as_str())?;
    if is_word(word.as_bytes(), b"explode") {
        return Some(Command::Explode { column });
    }
    if is_word(word.as_bytes(), b"nest") {
        return Some(Command::Nest { column });
    }
    None
}

fn is_word(word: &[u8], name: &[u8]) -> bool
    ensures { result ≡ bytes_eq word.now name.now }
{
    word == name
}
