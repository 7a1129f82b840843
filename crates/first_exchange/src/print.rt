//! The rows of a table, read in place and printed.
ghost use Rattle.std.specs.Prelude.{◌≤ℤ◌, ◌<ℤ◌, pos, IsTrue, OnOk};
ghost use Rattle.data_types.specs.promise.TypedView.{typed_of};
ghost use Rattle.arr_import.specs.Cols.{window_of};
ghost use Rattle.first_exchange.specs.Tables.{IsOfTwo};

use crate::fault::Fault;
use arr_import::Col;
use data_types::{DataType, kinds_of_typed};
use std::str::from_utf8;
use tree_check::Imported;

/// Prints the rows of a table of two columns. The check says that the structures are lawful, and their kinds say what table it
/// is: any other is refused here.
pub fn print_table(rt: &impl Print, imported: &Imported) -> Result<(), Fault>
    ensures of_two { OnOk result (IsOfTwo (typed_of imported.now.typed)) }
{
    if !is_of_two(imported) {
        return Err(Fault::OtherTable);
    }
    print_rows(rt, &imported.col())
}

/// The table's type is a struct of two columns.
fn is_of_two(imported: &Imported) -> bool
    ensures { IsTrue result → IsOfTwo (typed_of imported.now.typed) }
{
    let typed = imported.typed();
    kinds_of_typed(typed);
    match typed.kind {
        DataType::Struct => imported.col().n_children() == 2,
        _ => false,
    }
}

/// Prints each row: an id and a name. What is printed is lent from the blocks of the array.
fn print_rows(rt: &impl Print, table: &Col<'_>) -> Result<(), Fault>
    requires of_two { IsOfTwo (window_of table.now).typed }
{
    let ids = table.child(0);
    let names = table.child(1);
    for row in 0..table.len() {
        match ids.whole(row) {
            Some(id) => print!(rt; "{id} ")?,
            None => print!(rt; "- ")?,
        }
        println!(rt; "{}", text_of(&names, row))?;
    }
    Ok(())
}

/// The text of an item, and `?` where it is none.
fn text_of<'a>(names: &Col<'a>, row: i64) -> &'a str
    requires from { pos 0 ≤ℤ row }
    requires below { row <ℤ pos (window_of names.now).count }
{
    match names.bytes(row) {
        Some(name) => from_utf8(name).unwrap_or("?"),
        None => "?",
    }
}

/// Prints what the threads found.
pub fn print_found(rt: &impl Print, id: Option<i128>, name: usize) -> Result<(), Fault> {
    match id {
        Some(id) => println!(rt; "greatest id {id}, longest name {name} bytes")?,
        None => println!(rt; "no id, longest name {name} bytes")?,
    }
    Ok(())
}
