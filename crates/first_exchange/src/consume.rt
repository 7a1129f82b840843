//! The consumer: it takes a table over, checks it, reads it in place, shares it, and moves a column out of it.
ghost use Rattle.std.specs.Prelude.{◌≡◌, ◌+◌, ◌≤◌, if◌then◌else◌, is_ok, IfOk};
ghost use Rattle.unit_pass.specs.declared.pass.TheConstants.{SUPPLY};
ghost use Rattle.data_types.specs.KindTrees.{TypedOk};
ghost use Rattle.data_types.specs.promise.TypedView.{typed_of};
ghost use Rattle.tree_model.specs.promise.TreeCost.{Nodes};
ghost use Rattle.raw_array.specs.promise.Members.{Cost};
ghost use Rattle.raw_array.specs.Members.{LeastAmount};
ghost use Rattle.layout_rules.specs.promise.Walk.{LayoutOk};
ghost use Rattle.first_exchange.specs.Tables.{IsOfTwo};

use crate::fault::Fault;
use crate::print::{print_found, print_table};
use crate::produce::Table;
use crate::threads::read_in_threads;
use arr_move::slice;
use array_laws::{shares_show_the_same, trees_that_show_the_same, windows_are_parts};
use data_types::Typed;
use layout_rules::{lawful_root, lawful_trees};
use raw_array::{Gone, PartlyMoved, RawArray};
use std::alloc::Global;
use std::thread::Threads;
use tree_check::{Imported, import};
use unit_pass::{NoMemory, Pass, SUPPLY};

/// Takes over a table from whoever made it. On each outcome both structures are released, once.
pub fn consume<R: Print + Threads + Sync>(
    rt: &R,
    alloc: Global,
    table: Table,
    pass: &mut Pass,
) -> Result<(), Fault>
    requires share { 2 ≤ LeastAmount table.array }
    requires units { Cost table.array ≤ pass.old.units }
    requires room { pass.old.units + (Nodes table.schema + Cost table.array) ≤ SUPPLY }
    ensures units { pass.new.units ≡ pass.old.units + (Nodes table.schema + Cost table.array) }
{
    let Table { schema, array } = table;
    match import(alloc, schema, array) {
        Ok(imported) => read(rt, alloc, imported, pass),
        Err((schema, array, fault)) => {
            // What breaks a rule comes back whole, and still is the consumer's to release.
            schema.end(pass);
            array.end(pass);
            Err(Fault::Refused(fault))
        }
    }
}

/// Reads a checked table in place, and gives the array on.
fn read<R: Print + Threads + Sync>(
    rt: &R,
    alloc: Global,
    imported: Imported,
    pass: &mut Pass,
) -> Result<(), Fault>
    requires share { 2 ≤ LeastAmount imported.array }
    requires units { Cost imported.array ≤ pass.old.units }
    requires room { pass.old.units + (Nodes imported.schema + Cost imported.array) ≤ SUPPLY }
    ensures units { pass.new.units ≡ pass.old.units + (Nodes imported.schema + Cost imported.array) }
{
    let printed = print_table(rt, &imported);
    // The borrow has ended, and the consumer takes the parts out. The kinds say all that is needed of the schema.
    let (schema, array, typed) = imported.into_raw();
    schema.end(pass);
    match printed {
        Ok(()) => work(rt, alloc, &typed, array, pass),
        Err(fault) => {
            array.end(pass);
            Err(fault)
        }
    }
}

/// What is done with a table that the consumer owns: its first row is left out, two threads read it at once, and a column is
/// moved out of it.
fn work<R: Print + Threads + Sync>(
    rt: &R,
    alloc: Global,
    typed: &Typed,
    array: RawArray,
    pass: &mut Pass,
) -> Result<(), Fault>
    requires lawful { LayoutOk (typed_of typed.now) array }
    requires types { TypedOk (typed_of typed.now) }
    requires of_two { IsOfTwo (typed_of typed.now) }
    requires share { 2 ≤ LeastAmount array }
    requires units { Cost array ≤ pass.old.units }
    requires room { pass.old.units + Cost array ≤ SUPPLY }
    ensures units { pass.new.units ≡ pass.old.units + Cost array }
{
    let mut rest = without_first(typed, array);
    match share_of(alloc, typed, &mut rest, pass) {
        Ok(mut share) => {
            let (id, name) = read_in_threads(rt, typed, &mut rest, &mut share);
            // The threads are done with both trees. Each tree is released by itself, and a block with its last holder.
            share.end(pass);
            let printed = print_found(rt, id, name);
            let moved = move_names(rt, typed, rest, pass);
            printed?;
            moved
        }
        Err(NoMemory) => {
            rest.end(pass);
            Err(Fault::NoMemory)
        }
    }
}

/// A second tree over the blocks of a table. It is as lawful as the table, and so is what the share leaves of that.
fn share_of(
    alloc: Global,
    typed: &Typed,
    table: &mut RawArray,
    pass: &mut Pass,
) -> Result<RawArray, NoMemory>
    requires lawful { LayoutOk (typed_of typed.now) table.old }
    requires share { 2 ≤ LeastAmount table.old }
    requires units { Cost table.old ≤ pass.old.units }
    ensures lawful { LayoutOk (typed_of typed.now) table.new }
    ensures share { IfOk result (λ share. LayoutOk (typed_of typed.now) share) }
    ensures cost { IfOk result (λ share. Cost share ≡ Cost table.old) }
    ensures cost_kept { Cost table.new ≡ Cost table.old }
    ensures units { pass.new.units + (if is_ok result then Cost table.old else 0) ≡ pass.old.units }
{
    lawful_root(typed, table);
    trees_that_show_the_same();
    shares_show_the_same();
    table.share(alloc, pass)
}

/// The table without its first row, where it has one. The structure is moved, and no byte is copied.
fn without_first(typed: &Typed, array: RawArray) -> RawArray
    requires lawful { LayoutOk (typed_of typed.now) array }
    requires types { TypedOk (typed_of typed.now) }
    ensures lawful { LayoutOk (typed_of typed.now) result }
    ensures cost { Cost result ≡ Cost array }
    ensures share { LeastAmount result ≡ LeastAmount array }
{
    windows_are_parts();
    lawful_root(typed, &array);
    let rows = array.length();
    let first = rows.min(1);
    slice(array, first, rows - first)
}

/// Moves the names out of the table and releases the rest ("Moving child arrays"). A child keeps the window of its own: the
/// row that the table left out is still there.
fn move_names(rt: &impl Print, typed: &Typed, table: RawArray, pass: &mut Pass) -> Result<(), Fault>
    requires lawful { LayoutOk (typed_of typed.now) table }
    requires types { TypedOk (typed_of typed.now) }
    requires of_two { IsOfTwo (typed_of typed.now) }
    requires room { pass.old.units + Cost table ≤ SUPPLY }
    ensures units { pass.new.units ≡ pass.old.units + Cost table }
{
    lawful_root(typed, &table);
    lawful_trees();
    let rows = table.length();
    let mut parent = PartlyMoved::begin(table);
    let names = match parent.take_child(1) {
        Ok(names) => names,
        Err(Gone) => unreachable!(),
    };
    // The parent is released at once. The names don't need it: they own their buffers.
    parent.finish(pass);
    let told = println!(rt;
        "{rows} rows in the table, {} names in the column",
        names.length()
    );
    names.end(pass);
    told?;
    Ok(())
}
