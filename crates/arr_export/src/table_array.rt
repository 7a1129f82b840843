//! The array of a table.
ghost use Rattle.std.specs.Prelude.{◌≡◌, ◌+◌, ◌-◌, ◌^◌, ◌<◌, ◌≤◌, ◌≤ℤ◌, pos, [], ◌∷◌, length, None, All, if◌then◌else◌, is_ok, IfOk, IfErr};
ghost use Rattle.unit_pass.specs.promise.Tally.{risen};
ghost use Rattle.tree_model.specs.promise.TreeData.{trees};
ghost use Rattle.raw_array.specs.promise.Members.{Cost};
ghost use Rattle.raw_array.specs.Members.{cost_of_all};
ghost use Rattle.layout_rules.specs.promise.Layout.{natural};
ghost use Rattle.arr_export.specs.promise.ArrayTrees.{table_tree};
ghost use Rattle.arr_export.specs.ArrayTrees.{IsColumn};
ghost use Rattle.layout_rules.specs.promise.Rules.{window_limit};

use buf_block::BufView;
use raw_array::{ArrayParts, RawArray, ReleaseKind};
use std::alloc::Global;
use unit_pass::{NoMemory, Pass};

/// The buffers of a struct of which no item is null: an absent validity bitmap.
fn no_validity(alloc: Global) -> Result<Vec<Option<BufView>>, NoMemory>
    ensures { IfOk result (λ buffers. buffers.items ≡ None ∷ []) }
{
    let Ok(mut buffers) = Vec::with_capacity(alloc, 1) else {
        return Err(NoMemory);
    };
    buffers.push_reserved(None);
    Ok(buffers)
}

/// Such buffers have no hold to be let go.
fn end_no_validity(mut buffers: Vec<Option<BufView>>)
    requires { buffers.items ≡ None ∷ [] }
{
    match buffers.pop() {
        Some(Some(_view)) => unreachable!(),
        Some(None) | None => {}
    }
    buffers.destroy_empty();
}

/// A table: a live struct of these columns with this many rows, none of them null ("Arrow Columnar Format", "Struct
/// Layout"). Columns that are longer are in it as they are. It draws one unit and counts one node. Where memory runs out the
/// columns come back.
#[inline(always)]
pub fn export_table(
    alloc: Global,
    columns: Vec<RawArray>,
    rows: i64,
    pass: &mut Pass,
) -> Result<RawArray, (Vec<RawArray>, NoMemory)>
    requires units { 1 ≤ pass.old.units }
    requires some { pos 0 ≤ℤ rows }
    requires few_rows { rows ≤ℤ pos window_limit }
    requires few_columns { length columns.items < 2 ^ 32 - 1 }
    requires columns { All (IsColumn (natural rows)) columns.items }
    ensures tree { IfOk result (λ tree. tree ≡ table_tree (natural rows) columns.items) }
    ensures cost { IfOk result (λ tree. Cost tree ≡ 1 + cost_of_all (trees columns.items)) }
    ensures columns_back { IfErr result (λ back. back.0.items ≡ columns.items) }
    ensures units { pass.new.units + (if is_ok result then 1 else 0) ≡ pass.old.units }
    ensures nodes { pass.new.nodes ≡ (if is_ok result then risen pass.old.nodes 1 else pass.old.nodes) }
    ensures blocks { pass.new.blocks ≡ pass.old.blocks }
{
    let Ok(buffers) = no_validity(alloc) else {
        return Err((columns, NoMemory));
    };
    let parts = ArrayParts {
        length: rows,
        null_count: 0,
        offset: 0,
        buffers,
        children: columns,
        dictionary: None,
        kind: ReleaseKind::Assembled,
    };
    match RawArray::build(alloc, parts, pass) {
        Ok(tree) => Ok(tree),
        Err((parts, NoMemory)) => {
            let ArrayParts {
                length: _,
                null_count: _,
                offset: _,
                buffers,
                children,
                dictionary,
                kind: _,
            } = parts;
            end_no_validity(buffers);
            match dictionary {
                None => Err((children, NoMemory)),
                Some(_tree) => unreachable!(),
            }
        }
    }
}
